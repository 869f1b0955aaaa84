// Answers given through memory that a host lends: the record at its start, the rest as it was, and nothing touched after a refusal.
// And HSE as a host hands it to a decoder.
#![tactic(auto)]

ghost use Rattle.std.specs.Prelude.{◌≡◌, ℕ, length};
ghost use Rattle.answer.specs.Answer.{gives};
ghost use Rattle.answer.specs.Said.{says_by};
ghost use Rattle.capi_give.specs.Given.{decoder_hse, Given, GivenOne, pair_of, two_words, six_of, six_words, seven_of, seven_words};

use answer::{Numbered, Refusal};
use tree::Clocks;

// The six clocks, in words.
pub const CLOCKS_WORDS: usize = 6;
// The six clocks and one more number, in words.
pub const CHECK_WORDS: usize = 7;
// Two numbers, in words.
pub const PAIR_WORDS: usize = 2;

// HSE as it is handed to a decoder: a frequency of 0 says that there is none.
pub fn decoder_hse(hz: u32) -> Option<u32>
    ensures { result ≡ decoder_hse hz }
{
    if hz == 0 { None } else { Some(hz) }
}

// Gives bytes or words through lent ones. Refused by 32: they are fewer.
pub fn give<T: Copy>(items: &[T], out: &mut [T]) -> u8
    ensures { Given (length items.now) (gives items.now) out.old out.new result }
{
    if out.len() < items.len() {
        return Refusal::OutputTooShort.number();
    }
    out[..items.len()].copy_from_slice(items);
    0
}

// Gives a record of bytes or words, or hands its refusal on. 32 comes first.
pub fn give_record<T: Copy, E: Numbered, const N: usize>(
    items: Result<[T; N], E>,
    out: &mut [T],
) -> u8
    ensures { Given N (says_by E.number_of items) out.old out.new result }
{
    if out.len() < N {
        return Refusal::OutputTooShort.number();
    }
    match items {
        Err(e) => e.number(),
        Ok(xs) => give(&xs, out),
    }
}

// The six clocks as words, in the program's order. `boards` has this order too, and says why.
fn six(k: Clocks) -> [u32; CLOCKS_WORDS]
    ensures { result ≡ six_of k }
{
    [k.sysclk, k.hclk, k.pclk1, k.pclk2, k.pclk1_tim, k.pclk2_tim]
}

// And one more number behind them.
fn seven(both: (Clocks, u32)) -> [u32; CHECK_WORDS]
    ensures { result ≡ seven_of both }
{
    let (k, more) = both;
    [
        k.sysclk,
        k.hclk,
        k.pclk1,
        k.pclk2,
        k.pclk1_tim,
        k.pclk2_tim,
        more,
    ]
}

// Two numbers as words.
fn pair(both: (u32, u32)) -> [u32; PAIR_WORDS]
    ensures { result ≡ pair_of both }
{
    [both.0, both.1]
}

// Gives the six clocks, or hands their refusal on. 32 comes first.
pub fn give_six<E: Numbered>(buses: Result<Clocks, E>, out: &mut [u32]) -> u8
    ensures { Given 6 (six_words (says_by E.number_of buses)) out.old out.new result }
{
    give_record(buses.map(six), out)
}

// Gives the six clocks and one more number, or hands their refusal on. 32 comes first.
pub fn give_seven<E: Numbered>(answer: Result<(Clocks, u32), E>, out: &mut [u32]) -> u8
    ensures { Given 7 (seven_words (says_by E.number_of answer)) out.old out.new result }
{
    give_record(answer.map(seven), out)
}

// Gives two numbers, or hands their refusal on. 32 comes first.
pub fn give_two<E: Numbered>(answer: Result<(u32, u32), E>, out: &mut [u32]) -> u8
    ensures { Given 2 (two_words (says_by E.number_of answer)) out.old out.new result }
{
    give_record(answer.map(pair), out)
}

// Gives one number, or hands its refusal on.
pub fn give_one<E: Numbered>(reply: Result<u32, E>, out: &mut u32) -> u8
    ensures { GivenOne (says_by E.number_of reply) out.old out.new result }
{
    match reply {
        Err(refusal) => refusal.number(),
        Ok(x) => {
            *out = x;
            0
        }
    }
}
