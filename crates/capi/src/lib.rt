// The clocks of CH32V4x7 for C and Rust: the check of a profile, the decoder, the two queries, and what the host of a startup owes and may count on.
// Records come as bytes, frequencies go as words.
// Every call answers by number: 0, or document 01's refusal, and then nothing that was lent is touched.
#![tactic(auto, unfolding(crate::specs::Calls::decode_read, crate::specs::Calls::adc_read, crate::specs::Calls::rng_read, crate::specs::Owed::waits_read, crate::specs::Owed::calls_read))]

ghost use Rattle.std.specs.Prelude.{◌≡◌};
ghost use Rattle.answer.specs.Said.{says};
ghost use Rattle.capi_give.specs.Given.{Given, GivenOne, six_words, seven_words, two_words};
ghost use Rattle.profile.specs.Profile.{check_profile};
ghost use Rattle.capi.specs.Calls.{seven_of, decode_read, pair_of, adc_read, rng_read};
ghost use Rattle.capi.specs.Owed.{key_read, waits_read, calls_read};

use answer::Refusal;
use startup::FlashKey;
use tree::Clocks;

// The registers are numbers, since C hosts read them.

// The register of the first two keys, KEYR.
pub const KEYR: u32 = 0;
// The register of the other two, MODEKEYR.
pub const MODEKEYR: u32 = 1;

fn check(from: &[u8]) -> Result<(Clocks, u32), Refusal>
    ensures { says result ≡ seven_of (check_profile from.now) }
{
    let accepted = profile::check_profile(from)?;
    Ok((accepted.clocks, accepted.adc))
}

// Checks a profile of ten bytes. Gives seven words: SYSCLK, HCLK, PCLK1, PCLK2, their timers' clocks, and the ADC's frequency.
// Refused by 32, 29, 30, then by the check's 1 to 16.
#[unsafe(no_mangle)]
pub extern "C" fn wontabeli_check(from: &[u8], out: &mut [u32]) -> u8
    ensures { Given 7 (seven_words (seven_of (check_profile from.now))) out.old out.new result }
{
    capi_give::give_seven(check(from), out)
}

fn decode(from: &[u8], hz: u32) -> Result<Clocks, Refusal>
    ensures { says result ≡ decode_read from.now hz }
{
    decoder::decode(image::read_image(from)?, capi_give::decoder_hse(hz))
}

// Decodes an image of eight bytes, with HSE's frequency; 0 says that there is none. Gives six words: SYSCLK, HCLK, PCLK1, PCLK2, their timers'
// clocks. Refused by 32, 31, then by the decoder's numbers.
#[unsafe(no_mangle)]
pub extern "C" fn wontabeli_decode(from: &[u8], hz: u32, out: &mut [u32]) -> u8
    ensures { Given 6 (six_words (decode_read from.now hz)) out.old out.new result }
{
    capi_give::give_six(decode(from, hz), out)
}

// A query's answer as two words.
fn pair(query: Result<Option<u32>, Refusal>) -> Result<(u32, u32), Refusal>
    ensures { says result ≡ pair_of (says query) }
{
    match query? {
        None => Ok((0, 0)),
        Some(hz) => Ok((1, hz)),
    }
}

// This and `rng`, and `waits` and `calls`, differ in the function called: one for each two would take it as a closure, and be no shorter.
fn adc(from: &[u8], sysclk: u32) -> Result<Option<u32>, Refusal>
    ensures { says result ≡ adc_read from.now sysclk }
{
    decoder::adc_frequency(image::read_image(from)?, sysclk)
}

// The ADC's frequency by an image of eight bytes, with the SYSCLK handed in. Gives two words: 1 and the frequency; or zeros, "not ready".
// Refused by 32, then by 31.
#[unsafe(no_mangle)]
pub extern "C" fn wontabeli_adc(from: &[u8], sysclk: u32, out: &mut [u32]) -> u8
    ensures { Given 2 (two_words (pair_of (adc_read from.now sysclk))) out.old out.new result }
{
    capi_give::give_two(pair(adc(from, sysclk)), out)
}

fn rng(from: &[u8], sysclk: u32) -> Result<Option<u32>, Refusal>
    ensures { says result ≡ rng_read from.now sysclk }
{
    decoder::rng_source_frequency(image::read_image(from)?, sysclk)
}

// The RNG source's frequency, as `wontabeli_adc` gives the ADC's.
#[unsafe(no_mangle)]
pub extern "C" fn wontabeli_rng(from: &[u8], sysclk: u32, out: &mut [u32]) -> u8
    ensures { Given 2 (two_words (pair_of (rng_read from.now sysclk))) out.old out.new result }
{
    capi_give::give_two(pair(rng(from, sysclk)), out)
}

fn key(position: u8) -> Result<(u32, u32), Refusal>
    ensures { says result ≡ key_read position }
{
    match startup::flash_key(position).ok_or(Refusal::CodeNotAllowed)? {
        FlashKey::Keyr(key) => Ok((KEYR, key)),
        FlashKey::ModeKeyr(key) => Ok((MODEKEYR, key)),
    }
}

// A key that the host writes at step 19, in their order at positions 0 to 3. Gives two words: its register, 0 KEYR or 1 MODEKEYR, and the key.
// Refused by 32, then by 28: a position above 3.
#[unsafe(no_mangle)]
pub extern "C" fn wontabeli_flash_key(position: u8, out: &mut [u32]) -> u8
    ensures { Given 2 (two_words (key_read position)) out.old out.new result }
{
    capi_give::give_two(key(position), out)
}

fn waits(p: &[u8]) -> Result<u32, Refusal>
    ensures { says result ≡ waits_read p.now }
{
    startup::waits_owed(profile::read_profile(p)?)
}

// How many waits the startup of a profile has. Refused by 29, 30.
#[unsafe(no_mangle)]
pub extern "C" fn wontabeli_waits_owed(p: &[u8], out: &mut u32) -> u8
    ensures { GivenOne (waits_read p.now) out.old out.new result }
{
    capi_give::give_one(waits(p), out)
}

fn calls(p: &[u8]) -> Result<u32, Refusal>
    ensures { says result ≡ calls_read p.now }
{
    startup::call_bound(profile::read_profile(p)?)
}

// The startup of a profile is over within so many calls. Refused by 29, 30.
#[unsafe(no_mangle)]
pub extern "C" fn wontabeli_call_bound(p: &[u8], out: &mut u32) -> u8
    ensures { GivenOne (calls_read p.now) out.old out.new result }
{
    capi_give::give_one(calls(p), out)
}
