// Text in lent bytes: names, numbers and lines are put one after another. Each call takes the place where the text goes, and answers the place after
// it. Where there is no room for all of a text, nothing of it is put: the answer is None, which is refusal 32, and what is put there is refused too.
// The place stands beside the bytes: a struct of both would have to be lent in place of the bytes, and its contract say of the bytes behind it what `Placed` says of them.
// A place may be None: `Placed` says what is put there too, and a `usize` would ask more.
// `write!` through an impl of `fmt::Write` is no plainer: std says of it neither which bytes stand after a write without room nor where a text ends, and
// `Placed` says both of every call.
#![tactic(auto, using(crate::specs::Pieces::refused, crate::specs::Pieces::placed, crate::proofs::Numbers::number_part))]

ghost use Rattle.std.specs.Prelude.{◌≡◌, ◌+◌, ◌%◌, ◌≤◌, ltb, length, drop};
ghost use Rattle.text.specs.Decimal.{decimal, signed};
ghost use Rattle.text.specs.Text.{line_of, overlaid, Placed};

// Whether n bytes have no room at a place of so many lent ones. `layout` asks the same in numbers of four bytes, since 4 * n may be no usize.
fn no_room(lent: usize, at: usize, n: usize) -> bool
    ensures { result ≡ ltb lent (at + n) }
{
    lent < at || lent - at < n
}

// Copies a text that has room.
fn copy(out: &mut [u8], at: usize, text: &[u8])
    requires { at + length text.now ≤ length out.old }
    ensures { out.new ≡ overlaid out.old at text.now }
{
    out[at..at + text.len()].copy_from_slice(text);
}

// A text as it is.
pub fn put_bytes(out: &mut [u8], place: Option<usize>, text: &[u8]) -> Option<usize>
    ensures { Placed place text.now out.old out.new result }
{
    let at = place?;
    if no_room(out.len(), at, text.len()) {
        return None;
    }
    copy(out, at, text);
    Some(at + text.len())
}

// The last digit of a number. It fits, as is proved; `try_from` would have an error that never comes.
fn digit(n: u32) -> u8
    ensures { result ≡ 48 + n % 10 }
{
    48 + (n % 10) as u8
}

// Spells a number at the end of ten bytes, which have room for each of 32 bits, and answers the place of its first digit.
fn spell(ten: &mut [u8], n: u32) -> usize
    requires { length ten.old ≡ 10 }
    ensures ten_after { drop result ten.new ≡ decimal n }
    ensures n_value { result + length (decimal n) ≡ 10 }
{
    let mut first = 9;
    let mut rest = n;
    // No `for`: how many digits there are, and so where the first stands, is known only where they end.
    while rest >= 10 {
        ten[first] = digit(rest);
        first -= 1;
        rest /= 10;
    }
    ten[first] = digit(rest);
    first
}

// A number in decimal, without leading zeros.
pub fn put_decimal(out: &mut [u8], place: Option<usize>, n: u32) -> Option<usize>
    ensures { Placed place (decimal n) out.old out.new result }
{
    let mut ten = [0u8; 10];
    let first = spell(&mut ten, n);
    put_bytes(out, place, &ten[first..])
}

// A number with its sign: a minus where it is negative, and no plus.
#[tactic(auto, using(crate::specs::Pieces::refused, crate::proofs::Numbers::minus_length, crate::proofs::Signed::unsigned_text, crate::proofs::Signed::minus_text))]
pub fn put_signed(out: &mut [u8], place: Option<usize>, z: i32) -> Option<usize>
    ensures { Placed place (signed z) out.old out.new result }
{
    let n = z.unsigned_abs();
    if z >= 0 {
        return put_decimal(out, place, n);
    }
    let at = place?;
    let mut ten = [0u8; 10];
    let first = spell(&mut ten, n);
    if no_room(out.len(), at, 11 - first) {
        return None;
    }
    let digits = put_bytes(out, place, b"-");
    put_bytes(out, digits, &ten[first..])
}

// A line: a name, a space, a number, a newline.
#[tactic(auto, using(crate::specs::Pieces::refused, crate::proofs::Numbers::line_length))]
pub fn put_line(out: &mut [u8], place: Option<usize>, name: &[u8], n: u32) -> Option<usize>
    ensures { Placed place (line_of name.now n) out.old out.new result }
{
    let at = place?;
    let mut ten = [0u8; 10];
    let first = spell(&mut ten, n);
    if no_room(out.len(), at, name.len() + (12 - first)) {
        return None;
    }
    let space = put_bytes(out, place, name);
    let number = put_bytes(out, space, b" ");
    let newline = put_bytes(out, number, &ten[first..]);
    put_bytes(out, newline, b"\n")
}
