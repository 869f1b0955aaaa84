// The calls for C and Rust, under the names of include/wontabeli.h: each hands its arguments to the function of a capi crate, whose clauses it has. A library exports
// nothing to C, so they stand here once more.
#![tactic(auto)]

mod codec_calls;
mod h4_calls;
mod serial_calls;
mod startup_calls;
mod tray_calls;
mod v1_calls;
mod v30x_calls;
mod v4x7_calls;
