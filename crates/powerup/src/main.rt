// Runs whole startups against a simulated chip, and says of each how it ended. A case on standard input is a profile of ten bytes and the
// step that is to fail (0: none). `oracle/record` makes the cases and, from the Rust, what is to be written.
#![tactic(auto)]

use answer::Refusal;
use image::{Fields, Seen};
use startup::{Reading, Report, Startup};
use std::io::Read;

// A startup over registers as a reset leaves them, for this program: all fields zero.
fn started(config: v4x7::Config) -> Result<Startup, Refusal> {
    let reset = image::read_image(&[0u8; 8])?;
    Startup::start(config, reset)
}

// What a chip in order shows: each part that is on is ready, the clock switched to is in use, and the flash mode holds.
fn shown(f: Fields) -> Reading {
    Reading {
        seen: Seen {
            hsirdy: f.ctlr.hsion,
            hserdy: f.ctlr.hseon,
            pllrdy: f.ctlr.pllon,
            usbhs_pllrdy: f.ctlr.usbhs_pllon,
            eth_pllrdy: f.ctlr.eth_pllon,
            sws: f.cfgr0.sw,
        },
        sckmod: f.flash.sckmod,
    }
}

// The same, except that what this step asks for is not so. A match: a line for each wait of document 01, and 21.
fn contrary(f: Fields, step: u8) -> Reading {
    let mut r = shown(f);
    let other_mode = 3 - f.flash.sckmod % 4;
    let other_clock = 3 - f.cfgr0.sw % 4;
    match step {
        2 => r.seen.hsirdy = false,
        7 => r.seen.hserdy = true,
        10 => r.seen.hserdy = false,
        12 => r.seen.eth_pllrdy = false,
        15 => r.seen.usbhs_pllrdy = false,
        18 => r.seen.pllrdy = false,
        21 => r.sckmod = other_mode,
        _ => r.seen.sws = other_clock,
    }
    r
}

// No step fails at 0, as the case's byte has it.
fn reading(s: Startup, failing: u8) -> Reading {
    if s.step == failing {
        contrary(s.fields, failing)
    } else {
        shown(s.fields)
    }
}

// Asked of the whole startup, which then stays in one piece from call to call (docs/BENCHMARKS.md).
fn is_over(s: Startup) -> bool {
    s.over.is_some()
}

// As many calls as the bound allows.
fn run(begun: Startup, failing: u8) -> Startup {
    let mut s = begun;
    for _ in 0..startup::call_bound(s.config).unwrap_or(0) {
        if is_over(s) {
            return s;
        }
        s = s.step(reading(s, failing)).startup;
    }
    s
}

// A write that fails changes nothing else: the next one is tried all the same.
fn print_report(rt: &impl Print, report: Report) {
    let _ = match report {
        Report::Running { step, used } => print!(rt; "running step {step} readings {used}"),
        Report::Failed { number, step, used } => {
            print!(rt; "refused {number} step {step} readings {used}")
        }
        Report::Refused(number) => print!(rt; "refused {number}"),
        Report::Worked { step, used } | Report::Waiting { step, used } => {
            print!(rt; "not over step {step} readings {used}")
        }
    };
}

fn print_image(rt: &impl Print, f: Fields) {
    let mut bytes = [0u8; 8];
    let _ = image::write_image(f, &mut bytes);
    let image = u64::from_be_bytes(bytes);
    let _ = println!(rt; " image {image:016x}");
}

fn print_refused(rt: &impl Print, what: &str, refusal: Refusal) {
    let number = refusal.number();
    let _ = println!(rt; "not {what} {number}");
}

// One startup, and its line.
fn powered(rt: &impl Print, config: v4x7::Config, failing: u8) {
    match started(config) {
        Err(refusal) => print_refused(rt, "started", refusal),
        Ok(begun) => {
            let end = run(begun, failing);
            // A call after the end changes nothing and repeats the answer.
            let again = end.step(reading(end, failing));
            print_report(rt, again.report);
            print_image(rt, again.startup.fields);
        }
    }
}

// One case; false where the input ends. A read that fails counts as the end.
fn case<R: Read>(rt: &impl Print, reader: &mut R) -> bool {
    let mut bytes = [0u8; 10];
    let mut failing = [0u8; 1];
    if reader.read_exact(&mut bytes).is_err() || reader.read_exact(&mut failing).is_err() {
        return false;
    }
    match profile::read_profile(&bytes) {
        Err(refusal) => print_refused(rt, "read", refusal),
        Ok(config) => powered(rt, config, failing[0]),
    }
    true
}

// A proved loop has to end: no list of cases is longer.
fn main(rt: HostRuntime) {
    let mut reader = rt.reader();
    for _ in 0..1_000_000 {
        if !case(&rt, &mut reader) {
            break;
        }
    }
}
