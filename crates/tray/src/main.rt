// Reads a tray of boards from standard input, profiles of ten bytes back to back, and writes their records, 32 bytes each, or the line of the tray's
// refusal, to standard output.
#![tactic(auto)]

use answer::Refusal;

// Writes the line of a refusal, whose number has at most three digits, and answers whether all of it went out. It has room.
fn refuse(rt: &impl Print, refusal: Refusal) -> bool {
    let mut line = [0u8; 12];
    let number = u32::from(refusal.number());
    let Some(end) = text::put_line(&mut line, Some(0), b"refused", number) else {
        return false;
    };
    rt.write_all(&line[..end]).is_ok()
}

// Writes the answer to a tray. The 65,536 bytes that are lent have room for the records of 2,048 boards.
fn answer(rt: &impl Print, profiles: &[u8]) -> bool {
    let mut out = [0u8; 65536];
    match boards::tray(profiles, &mut out) {
        Ok(()) => {
            let n = profiles.len() / profile::SIZE * boards::RECORD;
            rt.write_all(&out[..n]).is_ok()
        }
        Err(refusal) => refuse(rt, refusal),
    }
}

// The buffer has room for 2,049 profiles, one more than for records. What is longer is refused by 32, as the whole of it would be. So the answer is
// the call's on all that was read to the end of standard input. A read that fails counts as that end: `bin/tray` notices it, and a failed write.
fn main(rt: HostRuntime) {
    let mut bytes = [0u8; 20490];
    let n = input::read_whole(&mut rt.reader(), &mut bytes);
    answer(&rt, &bytes[..n]);
}
