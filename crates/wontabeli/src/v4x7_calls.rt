// CH32V4x7: the check of a profile, the decoder, the two queries, and what the host of a startup owes and may count on. What each call does is said in `capi`.
ghost use Rattle.capi_give.specs.Given.{Given, GivenOne, six_words, seven_words, two_words};
ghost use Rattle.profile.specs.Profile.{check_profile};
ghost use Rattle.capi.specs.Calls.{seven_of, decode_read, pair_of, adc_read, rng_read};
ghost use Rattle.capi.specs.Owed.{key_read, waits_read, calls_read};

#[unsafe(no_mangle)]
pub extern "C" fn wontabeli_check(from: &[u8], out: &mut [u32]) -> u8
    ensures { Given 7 (seven_words (seven_of (check_profile from.now))) out.old out.new result }
{
    capi::wontabeli_check(from, out)
}

#[unsafe(no_mangle)]
pub extern "C" fn wontabeli_decode(from: &[u8], hz: u32, out: &mut [u32]) -> u8
    ensures { Given 6 (six_words (decode_read from.now hz)) out.old out.new result }
{
    capi::wontabeli_decode(from, hz, out)
}

#[unsafe(no_mangle)]
pub extern "C" fn wontabeli_adc(from: &[u8], sysclk: u32, out: &mut [u32]) -> u8
    ensures { Given 2 (two_words (pair_of (adc_read from.now sysclk))) out.old out.new result }
{
    capi::wontabeli_adc(from, sysclk, out)
}

#[unsafe(no_mangle)]
pub extern "C" fn wontabeli_rng(from: &[u8], sysclk: u32, out: &mut [u32]) -> u8
    ensures { Given 2 (two_words (pair_of (rng_read from.now sysclk))) out.old out.new result }
{
    capi::wontabeli_rng(from, sysclk, out)
}

#[unsafe(no_mangle)]
pub extern "C" fn wontabeli_flash_key(position: u8, out: &mut [u32]) -> u8
    ensures { Given 2 (two_words (key_read position)) out.old out.new result }
{
    capi::wontabeli_flash_key(position, out)
}

#[unsafe(no_mangle)]
pub extern "C" fn wontabeli_waits_owed(p: &[u8], out: &mut u32) -> u8
    ensures { GivenOne (waits_read p.now) out.old out.new result }
{
    capi::wontabeli_waits_owed(p, out)
}

#[unsafe(no_mangle)]
pub extern "C" fn wontabeli_call_bound(p: &[u8], out: &mut u32) -> u8
    ensures { GivenOne (calls_read p.now) out.old out.new result }
{
    capi::wontabeli_call_bound(p, out)
}
