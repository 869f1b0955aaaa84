// CH32V1 and CH32L1 for C: the check, the decoder, and the fields that starting a configuration leaves.
// What looks alike in capi_v30x goes by its own record and its own types; what is common is in capi_pll32.
#![tactic(auto, unfolding(crate::specs::Calls::check_read, crate::specs::Calls::decode_read, crate::specs::Calls::init_read))]

ghost use Rattle.std.specs.Prelude.{◌≡◌, leb};
ghost use Rattle.answer.specs.Said.{says};
ghost use Rattle.capi_give.specs.Given.{Given, six_words, seven_words};
ghost use Rattle.capi_pll32.specs.Bytes.{record_in, seven_of};
ghost use Rattle.capi_v1.specs.Calls.{chip_of, config_pll, config_of, config_allowed, is_config, fields_in, fields_allowed, is_fields, bytes_of, field_bytes, check_read, decode_read, init_read};

use answer::Refusal;
use pll32::ClockRecord;
use tree::Clocks;
use v1::{Chip, Config, Fields, Pll, PllPreDiv};

// The parts are numbers: C hosts hand them in.

// The part CH32V1.
pub const V1_PART_V1: u8 = 0;
// The part CH32L1.
pub const V1_PART_L1: u8 = 1;
// Bytes of a configuration of CH32V1 or CH32L1.
pub const V1_CONFIG_SIZE: usize = 14;
// Bytes of register fields of CH32V1 or CH32L1.
pub const V1_FIELDS_SIZE: usize = 8;

// `v1` knows no numbers of C hosts, so no `TryFrom` stands there.
fn chip(part: u8) -> Result<Chip, Refusal>
    ensures { says result ≡ record_in (leb part 1) (chip_of part) }
{
    match part {
        V1_PART_V1 => Ok(Chip::V1),
        V1_PART_L1 => Ok(Chip::L1),
        _ => Err(Refusal::CodeNotAllowed),
    }
}

// A record has a flag with the value beside it, and this makes the option of them.
fn pll(present: bool, halved: bool, mul: u8) -> Option<Pll>
    ensures { result ≡ config_pll present halved mul }
{
    let prediv = if halved {
        PllPreDiv::Div2
    } else {
        PllPreDiv::Div1
    };
    present.then_some(Pll { prediv, mul })
}

#[tactic(auto, unfolding(crate::specs::Calls::config_of))]
fn config_of(b: &[u8; V1_CONFIG_SIZE]) -> Config
    ensures { result ≡ config_of b.now }
{
    Config {
        hse: capi_pll32::config_hse(b[0] == 1, b[1] == 1, capi_pll32::hse_hz(b)),
        sys: b[6],
        pll_src: pll32::source_of(b[7] == 1),
        pll: pll(b[8] == 1, b[9] == 1, b[10]),
        ahb_pre: b[11],
        apb1_pre: b[12],
        apb2_pre: b[13],
    }
}

#[tactic(auto, unfolding(crate::specs::Calls::config_allowed))]
fn is_config(b: &[u8; V1_CONFIG_SIZE]) -> bool
    ensures { result ≡ config_allowed b.now }
{
    capi_pll32::hse_allowed(b[0], b[1], capi_pll32::hse_hz(b))
        && b[7] <= 1
        && (b[8] <= 1 && b[9] <= 1 && (b[8] == 1 || b[9] == 0 && b[10] == 0))
}

// A configuration's record, or 28.
// Not one generic function with `read_fields`: it would take the test and the reader as closures, each with its clause, and be no shorter.
// Inlined, as are `v1::check` and `pll32::pll_output`: else a check hands the configuration through memory (docs/BENCHMARKS.md).
#[inline]
fn read_config(bytes: &[u8]) -> Result<Config, Refusal>
    ensures { says result ≡ record_in (is_config bytes.now) (config_of bytes.now) }
{
    let b = capi_pll32::record(bytes)?;
    if is_config(&b) {
        Ok(config_of(&b))
    } else {
        Err(Refusal::CodeNotAllowed)
    }
}

fn fields_in(b: &[u8; V1_FIELDS_SIZE]) -> Fields
    ensures { result ≡ fields_in b.now }
{
    Fields {
        sws: b[0],
        pllsrc: b[1] == 1,
        pllxtpre: b[2] == 1,
        pllmul: b[3],
        hpre: b[4],
        ppre1: b[5],
        ppre2: b[6],
        hsipre: b[7] == 1,
    }
}

fn is_fields(b: &[u8; V1_FIELDS_SIZE]) -> bool
    ensures { result ≡ fields_allowed b.now }
{
    b[1] <= 1 && b[2] <= 1 && b[7] <= 1
}

// The fields' record, or 28.
fn read_fields(bytes: &[u8]) -> Result<Fields, Refusal>
    ensures { says result ≡ record_in (is_fields bytes.now) (fields_in bytes.now) }
{
    let b = capi_pll32::record(bytes)?;
    if is_fields(&b) {
        Ok(fields_in(&b))
    } else {
        Err(Refusal::CodeNotAllowed)
    }
}

fn check(part: u8, config: &[u8]) -> Result<ClockRecord, Refusal>
    ensures { says result ≡ check_read part config.now }
{
    let config = read_config(config)?;
    v1::check(chip(part)?, config)
}

// Checks a configuration of 14 bytes. Gives seven words: the six clocks, and twice the USB divisor, 0 where there is none.
// Refused by 32, 28, then by 3, 24, 20, 26.
#[unsafe(no_mangle)]
pub extern "C" fn wontabeli_v1_check(part: u8, config: &[u8], out: &mut [u32]) -> u8
    ensures { Given 7 (seven_words (seven_of (check_read part config.now))) out.old out.new result }
{
    capi_give::give_seven(capi_pll32::seven(check(part, config)), out)
}

fn decode(part: u8, fields: &[u8], hse: u32) -> Result<Clocks, Refusal>
    ensures { says result ≡ decode_read part fields.now hse }
{
    let fields = read_fields(fields)?;
    v1::decode(chip(part)?, fields, capi_give::decoder_hse(hse))
}

// Decodes fields of 8 bytes, with HSE's frequency; 0 says that there is none. Gives six words: the six clocks.
// Refused by 32, 28, then by 3, 24.
#[unsafe(no_mangle)]
pub extern "C" fn wontabeli_v1_decode(part: u8, fields: &[u8], hse: u32, out: &mut [u32]) -> u8
    ensures { Given 6 (six_words (decode_read part fields.now hse)) out.old out.new result }
{
    capi_give::give_six(decode(part, fields, hse), out)
}

fn init_fields(part: u8, config: &[u8], earlier: &[u8]) -> Result<Fields, Refusal>
    ensures { says result ≡ init_read part config.now earlier.now }
{
    let config = read_config(config)?;
    let earlier = read_fields(earlier)?;
    v1::init_fields(chip(part)?, config, earlier)
}

fn bytes(f: Fields) -> [u8; V1_FIELDS_SIZE]
    ensures { result ≡ bytes_of f }
{
    [
        f.sws,
        u8::from(f.pllsrc),
        u8::from(f.pllxtpre),
        f.pllmul,
        f.hpre,
        f.ppre1,
        f.ppre2,
        u8::from(f.hsipre),
    ]
}

// The fields that starting a configuration of 14 bytes leaves, over earlier ones of 8 bytes. Gives 8 bytes.
// Refused by 32, by 28 for the configuration's bytes, by 28 for the earlier fields', then by 28, 3, 24, 20, 26.
#[unsafe(no_mangle)]
pub extern "C" fn wontabeli_v1_init_fields(
    part: u8,
    config: &[u8],
    earlier: &[u8],
    out: &mut [u8],
) -> u8
    ensures { Given 8 (field_bytes (init_read part config.now earlier.now)) out.old out.new result }
{
    capi_give::give_record(init_fields(part, config, earlier).map(bytes), out)
}
