#![tactic(auto)]

// What a host relies on that makes the calls for C, as statements about the crates below. There is no code here: specs/ states them, proofs/
// shows them.
