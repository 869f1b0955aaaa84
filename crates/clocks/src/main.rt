// Reads a profile and up to eight serial ports from standard input, and writes their lines, or the line of the profile's refusal, to standard output.
#![tactic(auto)]

// Writes the answer to an input, and answers whether all of it went out. Every text has room. `rows` has the same lines: one function for both would be a
// public one of which no clause can say what it writes.
fn answer(rt: &impl Print, input: &[u8]) -> bool {
    let mut out = [0u8; report::TEXT];
    let Some(n) = report::report(input, &mut out) else {
        return false;
    };
    rt.write_all(&out[..n]).is_ok()
}

fn main(rt: HostRuntime) {
    // One byte more than a profile and eight ports have, so that a longer input is seen to be longer.
    let mut bytes = [0u8; 51];
    let n = input::read_whole(&mut rt.reader(), &mut bytes);
    answer(&rt, &bytes[..n]);
}
