// CH32V30x for C: the check, the decoder, and the fields that starting a configuration leaves.
// What looks alike in capi_v1 goes by its own record and its own types; what is common is in capi_pll32.
#![tactic(auto, unfolding(crate::specs::Calls::check_read, crate::specs::Calls::decode_read, crate::specs::Calls::init_read))]

ghost use Rattle.std.specs.Prelude.{◌≡◌};
ghost use Rattle.answer.specs.Said.{says};
ghost use Rattle.capi_give.specs.Given.{Given, six_words, seven_words};
ghost use Rattle.capi_pll32.specs.Bytes.{record_in, seven_of};
ghost use Rattle.capi_v30x.specs.Calls.{config_pll_source, config_pll, config_hs_pll, config_of, pll_allowed, usbhs_allowed, config_allowed, is_config, fields_in, fields_allowed, is_fields, bytes_of, field_bytes, check_read, decode_read, init_read};

use answer::Refusal;
use pll32::ClockRecord;
use tree::Clocks;
use v30x::{Config, Fields, Pll, PllSource};

// Bytes of a configuration of CH32V30x.
pub const V30X_CONFIG_SIZE: usize = 18;
// Bytes of register fields of CH32V30x.
pub const V30X_FIELDS_SIZE: usize = 9;

// A byte of a C host, which is 2 at most (`pll_allowed`); `v30x` knows no such bytes, so no `From` stands there.
fn pll_source(b: u8) -> PllSource
    ensures { result ≡ config_pll_source b }
{
    match b {
        0 => PllSource::Hsi,
        1 => PllSource::Hse,
        _ => PllSource::Pll2,
    }
}

// A record has a flag with the value beside it, and these make the option of them.
fn pll(present: bool, prediv: u8, mul: u8) -> Option<Pll>
    ensures { result ≡ config_pll present prediv mul }
{
    present.then_some(Pll { prediv, mul })
}

fn hspll(present: bool, pre: u8) -> Option<u8>
    ensures { result ≡ config_hs_pll present pre }
{
    present.then_some(pre)
}

#[tactic(auto, unfolding(crate::specs::Calls::config_of))]
fn config_of(b: &[u8; V30X_CONFIG_SIZE]) -> Config
    ensures { result ≡ config_of b.now }
{
    Config {
        hse: capi_pll32::config_hse(b[0] == 1, b[1] == 1, capi_pll32::hse_hz(b)),
        sys: b[6],
        pll_src: pll_source(b[7]),
        pll: pll(b[8] == 1, b[9], b[10]),
        pllx: b[11] == 1,
        ahb_pre: b[12],
        apb1_pre: b[13],
        apb2_pre: b[14],
        hspll_src: pll32::source_of(b[15] == 1),
        hspll: hspll(b[16] == 1, b[17]),
    }
}

fn pll_allowed(b: &[u8; V30X_CONFIG_SIZE]) -> bool
    ensures { result ≡ pll_allowed b.now }
{
    b[7] <= 2 && b[8] <= 1 && (b[8] == 1 || b[9] == 0 && b[10] == 0) && b[11] <= 1
}

fn usbhs_allowed(b: &[u8; V30X_CONFIG_SIZE]) -> bool
    ensures { result ≡ usbhs_allowed b.now }
{
    b[15] <= 1 && b[16] <= 1 && (b[16] == 1 || b[17] == 0)
}

#[tactic(auto, unfolding(crate::specs::Calls::config_allowed))]
fn is_config(b: &[u8; V30X_CONFIG_SIZE]) -> bool
    ensures { result ≡ config_allowed b.now }
{
    capi_pll32::hse_allowed(b[0], b[1], capi_pll32::hse_hz(b)) && pll_allowed(b) && usbhs_allowed(b)
}

// A configuration's record, or 28.
// Not one generic function with `read_fields`: it would take the test and the reader as closures, each with its clause, and be no shorter.
fn read_config(bytes: &[u8]) -> Result<Config, Refusal>
    ensures { says result ≡ record_in (is_config bytes.now) (config_of bytes.now) }
{
    let b = capi_pll32::record(bytes)?;
    if is_config(&b) {
        Ok(config_of(&b))
    } else {
        Err(Refusal::CodeNotAllowed)
    }
}

fn fields_in(b: &[u8; V30X_FIELDS_SIZE]) -> Fields
    ensures { result ≡ fields_in b.now }
{
    Fields {
        sws: b[0],
        pllsrc: b[1] == 1,
        prediv1: b[2],
        prediv1src: b[3] == 1,
        pllmul: b[4],
        hpre: b[5],
        ppre1: b[6],
        ppre2: b[7],
        hsipre: b[8] == 1,
    }
}

fn is_fields(b: &[u8; V30X_FIELDS_SIZE]) -> bool
    ensures { result ≡ fields_allowed b.now }
{
    b[1] <= 1 && b[3] <= 1 && b[8] <= 1
}

// The fields' record, or 28.
fn read_fields(bytes: &[u8]) -> Result<Fields, Refusal>
    ensures { says result ≡ record_in (is_fields bytes.now) (fields_in bytes.now) }
{
    let b = capi_pll32::record(bytes)?;
    if is_fields(&b) {
        Ok(fields_in(&b))
    } else {
        Err(Refusal::CodeNotAllowed)
    }
}

fn check(config: &[u8]) -> Result<ClockRecord, Refusal>
    ensures { says result ≡ check_read config.now }
{
    v30x::check(read_config(config)?)
}

// Checks a configuration of 18 bytes. Gives seven words: the six clocks, and twice the USB divisor, 0 where there is none.
// Refused by 32, 28, then by 27, 3, 24, 25, 8, 20, 26.
#[unsafe(no_mangle)]
pub extern "C" fn wontabeli_v30x_check(config: &[u8], out: &mut [u32]) -> u8
    ensures { Given 7 (seven_words (seven_of (check_read config.now))) out.old out.new result }
{
    capi_give::give_seven(capi_pll32::seven(check(config)), out)
}

fn decode(fields: &[u8], hse: u32) -> Result<Clocks, Refusal>
    ensures { says result ≡ decode_read fields.now hse }
{
    v30x::decode(read_fields(fields)?, capi_give::decoder_hse(hse))
}

// Decodes fields of 9 bytes, with HSE's frequency; 0 says that there is none. Gives six words: the six clocks.
// Refused by 32, 28, then by 27, 3, 24.
#[unsafe(no_mangle)]
pub extern "C" fn wontabeli_v30x_decode(fields: &[u8], hse: u32, out: &mut [u32]) -> u8
    ensures { Given 6 (six_words (decode_read fields.now hse)) out.old out.new result }
{
    capi_give::give_six(decode(fields, hse), out)
}

fn init_fields(config: &[u8], earlier: &[u8]) -> Result<Fields, Refusal>
    ensures { says result ≡ init_read config.now earlier.now }
{
    let config = read_config(config)?;
    v30x::init_fields(config, read_fields(earlier)?)
}

fn bytes(f: Fields) -> [u8; V30X_FIELDS_SIZE]
    ensures { result ≡ bytes_of f }
{
    [
        f.sws,
        u8::from(f.pllsrc),
        f.prediv1,
        u8::from(f.prediv1src),
        f.pllmul,
        f.hpre,
        f.ppre1,
        f.ppre2,
        u8::from(f.hsipre),
    ]
}

// The fields that starting a configuration of 18 bytes leaves, over earlier ones of 9 bytes. Gives 9 bytes.
// Refused by 32, by 28 for the configuration's bytes, by 28 for the earlier fields', then by 28, 27, 3, 24, 25, 8, 20, 26.
#[unsafe(no_mangle)]
pub extern "C" fn wontabeli_v30x_init_fields(config: &[u8], earlier: &[u8], out: &mut [u8]) -> u8
    ensures { Given 9 (field_bytes (init_read config.now earlier.now)) out.old out.new result }
{
    capi_give::give_record(init_fields(config, earlier).map(bytes), out)
}
