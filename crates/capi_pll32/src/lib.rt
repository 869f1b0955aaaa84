// What the calls of CH32V1, CH32L1 and CH32V30x for C share: records of a fixed length, HSE in a record, and the answer of a check.
#![tactic(auto)]

ghost use Rattle.std.specs.Prelude.{◌≡◌, length, eqb};
ghost use Rattle.answer.specs.Said.{says, says_by};
ghost use Rattle.capi_pll32.specs.Bytes.{record_in, hse_hz_in, config_hse, hse_allowed, seven_of};

use answer::{Numbered, Refusal};
use pll32::ClockRecord;
use tree::{Clocks, Hse};

// The bytes of a record of that length. Others are refused by 28.
pub fn record<const N: usize>(bytes: &[u8]) -> Result<[u8; N], Refusal>
    ensures { says result ≡ record_in (eqb (length bytes.now) N) bytes.now }
{
    <[u8; N]>::try_from(bytes).map_err(|_| Refusal::CodeNotAllowed)
}

// HSE's frequency, from bytes 2 to 5 of a configuration.
pub fn hse_hz(b: &[u8]) -> u32
    ensures { result ≡ hse_hz_in b.now }
{
    layout::word(b, 16)
}

// HSE of a configuration: the record has a flag with the value beside it, and this makes the option of them.
pub fn config_hse(present: bool, bypass: bool, freq: u32) -> Option<Hse>
    ensures { result ≡ config_hse present bypass freq }
{
    present.then_some(Hse { bypass, freq })
}

// Whether a configuration may have these bytes for HSE: the record's, before an option is made of them.
pub fn hse_allowed(present: u8, bypass: u8, freq: u32) -> bool
    ensures { result ≡ hse_allowed present bypass freq }
{
    present <= 1 && bypass <= 1 && (present == 1 || bypass == 0 && freq == 0)
}

// A check's answer, to be given as seven words.
pub fn seven<E: Numbered>(checked: Result<ClockRecord, E>) -> Result<(Clocks, u32), E>
    ensures { says_by E.number_of result ≡ seven_of (says_by E.number_of checked) }
{
    let accepted = checked?;
    Ok((accepted.clocks, u32::from(accepted.usb)))
}
