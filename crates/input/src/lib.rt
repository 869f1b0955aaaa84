// A reader, as that of standard input, read to its end.
#![tactic(auto)]

ghost use Rattle.std.specs.Prelude.{◌≤◌, IfSome, length, take};
ghost use Rattle.std.specs.Io.{StartsWith};
ghost use Rattle.std.specs.Io.KnownBytes.{Consumes};

use std::io::Read;

// One read, and how many bytes it put at the start of buf. A read that fails counts as the end of the input, of which none come.
fn read_some<R: Read>(reader: &mut R, buf: &mut [u8]) -> usize
    ensures in_bounds { result ≤ length buf.new }
    ensures bytes { Consumes (R.remaining reader.old) (R.remaining reader.new) (take result buf.new) }
{
    reader.read(buf).unwrap_or(0)
}

// Reads until buf is full or the input ends, and answers how many bytes came into buf, at its start.
fn read_full<R: Read>(reader: &mut R, buf: &mut [u8]) -> usize
    ensures in_bounds { result ≤ length buf.new }
    ensures bytes { Consumes (R.remaining reader.old) (R.remaining reader.new) (take result buf.new) }
{
    let mut done = 0;
    // No `for`: a read brings as many bytes as it likes.
    while done < buf.len() {
        let n = read_some(reader, &mut buf[done..]);
        if n == 0 {
            break;
        }
        done += n;
    }
    done
}

// Reads on, and answers whether something came.
fn read_on<R: Read>(reader: &mut R) -> bool {
    let mut rest = [0u8; 65536];
    let n = read_full(reader, &mut rest);
    0 < n
}

// Reads the rest of the input, so that nobody who writes it is cut off. Nothing says that it ends, and a proved loop has to: so the loop
// has a number of turns that no run uses up.
fn drain<R: Read>(reader: &mut R) {
    for _ in 0..u64::MAX {
        if !read_on(reader) {
            break;
        }
    }
}

// Fills buf from the reader, reads what is left to its end and throws that away. Answers how many bytes came into buf, at its start.
pub fn read_whole<R: Read>(reader: &mut R, buf: &mut [u8]) -> usize
    ensures in_bounds { result ≤ length buf.new }
    ensures bytes { IfSome (R.remaining reader.old) (λ xs. StartsWith xs (take result buf.new)) }
{
    let n = read_full(reader, buf);
    drain(reader);
    n
}
