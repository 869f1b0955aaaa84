// Records packed most significant bit first: a layout is the list of its fields' widths.
// An `as` here makes a number narrower that is proved to fit; `try_from` would have an error that never comes. A place goes beside the bytes where it is one of
// a bit, at which no slice can begin, or where numbers are put at it (`with_numbers`).
#![tactic(auto)]

ghost use Rattle.std.specs.Prelude.{◌≡◌, [], ◌∷◌, ◌+◌, ◌-◌, ◌*◌, ◌%◌, ◌^◌, ◌≤◌, ◌<◌, ltb, length, get_or};
ghost use Rattle.std.proofs.lemmas.List.Edits.{sets};
ghost use Rattle.layout.specs.Bits.{bits_at, flag_at, up_to, field_at, loaded};
ghost use Rattle.layout.specs.Layout.{num, unpack, bytes, field_fits, storable};
ghost use Rattle.layout.specs.Gathered.{Fits, Gathers};
ghost use Rattle.layout.specs.Numbers.{with_numbers};
ghost use Rattle.layout.specs.Stored.{Stored};

// The bits of a record that don't make a byte yet: `count` of them spell `value`, and go to the byte `at`. Never compared or printed, so it
// derives Clone and Copy alone.
#[derive(Clone, Copy)]
struct Pending {
    at: usize,
    count: u8,
    value: u64,
}

// A power of two, here for its bound: the exponent is small.
fn two(k: u8) -> u64
    requires { k ≤ 16 }
    ensures { result ≡ 2 ^ k }
{
    1 << k
}

// The byte j. Past the end it is 0.
fn byte(s: &[u8], j: usize) -> u64
    ensures { (result ≡ get_or s.now j 0) × (result < 256) }
{
    u64::from(s.get(j).copied().unwrap_or(0))
}

// The bits from place `at` to the end of its byte.
#[tactic(auto, using(crate::proofs::Reading::rest_of_byte))]
fn rest_of_byte(s: &[u8], at: usize) -> u64
    ensures { result ≡ bits_at s.now at (8 - at % 8) }
{
    byte(s, at / 8) % two((8 - at % 8) as u8)
}

// The first k bits of the byte j: moved up by k places, they are what stands above eight bits.
fn first_bits(s: &[u8], j: usize, k: u8) -> u64
    requires { k ≤ 8 }
    ensures { result ≡ bits_at s.now (8 * j) k }
{
    byte(s, j) * two(k) / 256
}

// The number that `count` bits from place `at` on spell, most significant bit first; place 0 is the first byte's most significant bit.
// A count above 64 reads 64 bits, and places past the end hold 0.
pub fn bits(s: &[u8], at: usize, count: usize) -> u64
    ensures { result ≡ bits_at s.now at (up_to 64 count) }
{
    let n = count.min(64);
    // Up to eight bits may end in the byte in which they begin.
    if n <= 8 {
        return u64::from(code(s, at, n));
    }
    // The rest of the first byte, then whole bytes, then the leftover bits: the first ones of the next byte.
    // `at + n` could pass the end of usize. So places and bytes are counted from the byte that holds `at`.
    let start = at / 8;
    let end = at % 8 + n;
    // The bytes that are read to their end, the first among them.
    let whole = end / 8;
    let mut v = rest_of_byte(s, at);
    for i in 1..whole {
        v = v * 256 + byte(s, start + i);
    }
    let leftover = (end % 8) as u8;
    v * two(leftover) + first_bits(s, start + whole, leftover)
}

// Is the bit at place `at` set? Past the end it is not.
pub fn flag(s: &[u8], at: usize) -> bool
    ensures { result ≡ flag_at s.now at }
{
    bits(s, at, 1) == 1
}

// A field of at most eight bits; a width above eight reads eight. It lies in the byte that holds place `at` and the next.
pub fn code(s: &[u8], at: usize, width: usize) -> u8
    ensures { result ≡ bits_at s.now at (up_to 8 width) }
{
    let n = width.min(8);
    let j = at / 8;
    let pair = byte(s, j) * 256 + byte(s, j + 1);
    let behind = (16 - at % 8 - n) as u8;
    (pair / two(behind) % two(n as u8)) as u8
}

// The 32 bits from place `at` on.
#[tactic(auto, using(crate::proofs::Reading::bits_lt))]
pub fn word(s: &[u8], at: usize) -> u32
    ensures { result ≡ bits_at s.now at 32 }
{
    bits(s, at, 32) as u32
}

// The number that four bytes spell, the most significant first.
pub fn number(a: u8, b: u8, c: u8, d: u8) -> u32
    ensures { result ≡ num (a ∷ b ∷ c ∷ d ∷ []) }
{
    u32::from_be_bytes([a, b, c, d])
}

// The four bytes of a number, the most significant first.
pub fn four_bytes(x: u32) -> [u8; 4]
    ensures { result ≡ unpack (bytes 4) x }
{
    x.to_be_bytes()
}

// Whether n numbers of four bytes have no room at a place of so many lent bytes.
fn no_room(lent: usize, at: usize, n: usize) -> bool
    ensures { result ≡ ltb lent (at + 4 * n) }
{
    lent < at || (lent - at) / 4 < n
}

// Writes a number as four bytes, the most significant first.
fn put_number(out: &mut [u8], at: usize, x: u32)
    requires { at + 4 ≤ length out.old }
    ensures { out.new ≡ sets out.old at (unpack (bytes 4) x) }
{
    out[at..at + 4].copy_from_slice(&four_bytes(x));
}

// Writes numbers, four bytes each, one behind another from place `at` on. Where there is no room for all of them, all bytes stay.
pub fn put_numbers(out: &mut [u8], at: usize, xs: &[u32])
    ensures { out.new ≡ with_numbers out.old at xs.now }
{
    if no_room(out.len(), at, xs.len()) {
        return;
    }
    // By place, as the head says.
    for (i, x) in xs.iter().enumerate() {
        put_number(out, at + 4 * i, *x);
    }
}

// The field k of a layout, cut out of the bytes s. A width above eight counts as eight, and a field after the first 256, or after the last, is 0.
// Where list and k are constants, the compiler knows the field's place, and little is left to do.
pub fn field(ws: &[u8], s: &[u8], k: usize) -> u8
    ensures { result ≡ field_at ws.now s.now k }
{
    if ws.len().min(256) <= k {
        return 0;
    }
    let mut at = 0;
    // A loop, whose invariant bounds the place; a `sum` would want the bound of the whole list first.
    for w in &ws[..k] {
        at += usize::from(*w).min(8);
    }
    code(s, at, usize::from(ws[k]))
}

// Loads the fields of a layout out of the bytes s, one a byte, into the first of the lent ones; those beyond stay. It is the inverse of `store`.
// A width above eight counts as eight. Fields for which no byte is lent are not loaded, nor those after the first 256.
pub fn load(ws: &[u8], s: &[u8], out: &mut [u8])
    ensures { out.new ≡ loaded ws.now s.now out.old }
{
    let n = ws.len().min(out.len()).min(256);
    // By place: it ends by three lengths, which a zip would say less plainly.
    let mut at = 0;
    for i in 0..n {
        let w = usize::from(ws[i]);
        out[i] = code(s, at, w);
        at += w.min(8);
    }
}

// Is x a field of w bits, and w at most eight?
fn fits_in(w: u8, x: u8) -> bool
    ensures { result ≡ field_fits w x }
{
    w <= 8 && u64::from(x) < two(w)
}

// Is there one field for each width, each within it, and none wider than a byte? And are they whole bytes in all, no more than there is room for?
fn fits(ws: &[u8], xs: &[u8], room: usize) -> bool
    ensures { result ≡ storable ws.now xs.now room }
{
    if ws.len() != xs.len() {
        return false;
    }
    let mut size = 0;
    let mut count: u8 = 0;
    // By place, here and in `store`: a zip of the two would take 805 instructions for a profile's fields, and this takes 459.
    for (i, w) in ws.iter().enumerate() {
        if !fits_in(*w, xs[i]) {
            return false;
        }
        count += *w;
        size += usize::from(count / 8);
        count %= 8;
    }
    (count == 0) & (size <= room)
}

// Takes the w bits of x after those that are pending. Where they make a byte, it goes into its place.
fn gather(out: &mut [u8], p: Pending, w: u8, x: u8) -> Pending
    requires { Fits (length out.old) p w x }
    ensures { Gathers out.old p w x out.new result }
{
    let value = p.value * two(w) + u64::from(x);
    let count = p.count + w;
    let at = p.at;
    if count < 8 {
        return Pending { at, count, value };
    }
    let rest = count - 8;
    let low = two(rest);
    out[at] = (value / low) as u8;
    Pending {
        at: at + 1,
        count: rest,
        value: value % low,
    }
}

// Stores the fields in the first of the lent bytes, each byte once; those beyond stay. Where the fields don't fit their widths, or aren't whole
// bytes, or there is no room, it answers false, and all bytes stay.
pub fn store(ws: &[u8], xs: &[u8], out: &mut [u8]) -> bool
    ensures { Stored ws.now xs.now out.old out.new result }
{
    if !fits(ws, xs, out.len()) {
        return false;
    }
    let mut p = Pending {
        at: 0,
        count: 0,
        value: 0,
    };
    // By place, as in `fits`.
    for (i, w) in ws.iter().enumerate() {
        p = gather(out, p, *w, xs[i]);
    }
    true
}
