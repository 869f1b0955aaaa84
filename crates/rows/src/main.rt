// Answers a list of inputs one after another: each is a length byte and so many bytes. What it writes is what the program `clocks` writes for each.
#![tactic(auto)]

use std::io::Read;

// Writes the answer to an input, and answers whether all of it went out. Every text has room. `clocks` has the same lines, and says why.
fn answer(rt: &impl Print, input: &[u8]) -> bool {
    let mut out = [0u8; report::TEXT];
    let Some(n) = report::report(input, &mut out) else {
        return false;
    };
    rt.write_all(&out[..n]).is_ok()
}

// Reads one input and answers it; false where there is none left. A read that fails counts as the end.
fn answer_next<R: Read>(rt: &impl Print, reader: &mut R) -> bool {
    let mut size = [0u8; 1];
    if reader.read_exact(&mut size).is_err() {
        return false;
    }
    let n = usize::from(size[0]);
    let mut input = [0u8; 255];
    if reader.read_exact(&mut input[..n]).is_err() {
        return false;
    }
    answer(rt, &input[..n])
}

// A proved loop has to end: so it has a number of turns that no run uses up.
fn main(rt: HostRuntime) {
    let mut reader = rt.reader();
    for _ in 0..u64::MAX {
        if !answer_next(&rt, &mut reader) {
            break;
        }
    }
}
