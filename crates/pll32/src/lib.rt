// What CH32V1, CH32L1 and CH32V30x share: the PLL whose product must fit 32 bits, the choice of SYSCLK, and the answer of a check.
#![tactic(auto, unfolding(crate::specs::Pll::multiplied_of, crate::specs::Pll::pll_output_of, crate::specs::Pll::sysclk_of, crate::specs::Pll::usb_divisor, crate::specs::Pll::configured_clocks_of, crate::specs::Pll::decoded_sysclk_of, crate::specs::Pll::decoded_clocks_of, crate::specs::Pll::setting_in))]

ghost use Rattle.std.specs.Prelude.{◌≡◌, ◌<◌, Option};
ghost use Rattle.answer.specs.Answer.{gives};
ghost use Rattle.answer.specs.Said.{says};
ghost use Rattle.pll32.specs.Pll.{factor, halves, family_of, too_wide, wide_setting, hsi_of, needed_hse_of, source_frequency_of, multiplied_of, pll_output_of, pll_as_sysclk_of, sysclk_of, usb_divisor, usb_of, configured_clocks_of, decoded_sysclk_of, decoded_clocks_of, source_of, prediv_code_in, setting_in};

use answer::Refusal;
use divider::{Family, Frequency};
use tree::{Clocks, Prescalers};

// The parts. L1 differs from V1 in one multiplier and one USB divisor.
#[derive(Clone, Copy, Debug, PartialEq, Eq)]
pub enum Part {
    V1,
    L1,
    V30x,
}

// What feeds a PLL.
#[derive(Clone, Copy, Debug, PartialEq, Eq)]
pub enum Source {
    Hsi,
    Hse,
}

// How a PLL is set: its source, the code of its predivider (the divisor less one) and the PLLMUL code. Both codes have four bits.
#[derive(Clone, Copy, Debug, PartialEq, Eq)]
pub struct Setting {
    pub source: Source,
    pub prediv: u8,
    pub mul: u8,
}

// The codes of the system clock and of the prescalers below it.
#[derive(Clone, Copy, Debug, PartialEq, Eq)]
pub struct Codes {
    pub sys: u8,
    pub prescalers: Prescalers,
}

// The clock record of an accepted configuration: the six clocks and, apart, the USB divisor of the PLL's output, doubled (1.5 is 3), 0 for none, as `usb_of` gives it.
#[derive(Clone, Copy, Debug, PartialEq, Eq)]
pub struct ClockRecord {
    pub clocks: Clocks,
    pub usb: u8,
}

pub const HSI: u32 = 8_000_000;

// A row for each part and a column for each PLLMUL code. Code 13 of V30x is 6.5: its 13 is halved.
const FACTORS: [[u8; 16]; 3] = [
    [2, 3, 4, 5, 6, 7, 8, 9, 10, 11, 12, 13, 14, 15, 16, 16], // V1
    [2, 3, 4, 5, 6, 7, 8, 9, 10, 11, 12, 13, 14, 15, 16, 18], // L1
    [18, 3, 4, 5, 6, 7, 8, 9, 10, 11, 12, 13, 14, 13, 15, 16], // V30x
];

#[tactic(auto, using(crate::proofs::Factors::factor_rule), unfolding(crate::specs::Pll::row_of))]
fn factor_of(part: Part, code: usize) -> u8
    requires { code < 16 }
    ensures { result ≡ factor part code }
{
    // By the part's discriminant.
    let row = FACTORS[part as usize];
    row[code]
}

// Whether the code's factor is to be halved: code 13 of V30x.
fn halved(part: Part, code: u8) -> bool
    ensures { result ≡ halves part code }
{
    matches!((part, code), (Part::V30x, 13))
}

// The divider's family of a part.
impl From<Part> for Family {
    ghost from_gives = { λ part r. r ≡ family_of part };

    fn from(part: Part) -> Family {
        match part {
            Part::V1 | Part::L1 => Family::V1,
            Part::V30x => Family::V30x,
        }
    }
}

// A code too wide for its field: of the system clock, AHB, APB1 or APB2.
pub fn too_wide(codes: Codes) -> bool
    ensures { result ≡ too_wide codes.sys codes.prescalers.ahb codes.prescalers.apb1 codes.prescalers.apb2 }
{
    let Prescalers { ahb, apb1, apb2 } = codes.prescalers;
    (4 <= codes.sys) | (16 <= ahb) | (8 <= apb1) | (8 <= apb2)
}

// A code of a PLL too wide for its field: of the predivider or of the multiplier.
pub fn wide_setting(prediv: u8, mul: u8) -> bool
    ensures { result ≡ wide_setting prediv mul }
{
    (16 <= prediv) | (16 <= mul)
}

fn hsi() -> Frequency
    ensures { gives result ≡ hsi_of }
{
    divider::hertz(HSI)
}

// HSE's frequency, where it is needed.
fn needed_hse(hse: Option<u32>) -> Result<Frequency, Refusal>
    ensures { says result ≡ needed_hse_of hse }
{
    let hz = hse.ok_or(Refusal::HseMissing)?;
    Ok(divider::hertz(hz))
}

// The frequency of a PLL's source.
pub fn source_frequency(source: Source, hse: Option<u32>) -> Result<Frequency, Refusal>
    ensures { says result ≡ source_frequency_of source hse }
{
    match source {
        Source::Hsi => Ok(hsi()),
        Source::Hse => needed_hse(hse),
    }
}

// An input multiplied by a PLLMUL code: the product must fit, then 6.5's is halved.
fn multiplied(part: Part, input: Frequency, mul: u8) -> Result<Frequency, Refusal>
    requires { mul < 16 }
    ensures { says result ≡ multiplied_of part input mul }
{
    let by = factor_of(part, usize::from(mul));
    let product = u64::from(input.hz) * u64::from(by);
    let Ok(hz) = u32::try_from(product) else {
        return Err(Refusal::PllOver32Bits);
    };
    let fits = divider::hertz(hz);
    if halved(part, mul) {
        return Ok(divider::by_one_more(fits, 1));
    }
    Ok(fits)
}

// What a PLL makes of its source. Part and HSE go beside each other here and below: nothing in the documents joins the two.
#[inline]
pub fn pll_output(part: Part, hse: Option<u32>, setting: Setting) -> Result<Frequency, Refusal>
    ensures { says result ≡ pll_output_of part hse setting }
{
    if wide_setting(setting.prediv, setting.mul) {
        return Err(Refusal::CodeNotAllowed);
    }
    let feeding = source_frequency(setting.source, hse)?;
    multiplied(
        part,
        divider::by_one_more(feeding, setting.prediv),
        setting.mul,
    )
}

// The output of a PLL as SYSCLK.
fn pll_as_sysclk(output: Option<Frequency>) -> Result<Frequency, Refusal>
    ensures { says result ≡ pll_as_sysclk_of output }
{
    output.ok_or(Refusal::SysclkWithoutPll)
}

// SYSCLK in a check, of a code of two bits.
fn sysclk(hse: Option<u32>, output: Option<Frequency>, sys: u8) -> Result<Frequency, Refusal>
    ensures { says result ≡ sysclk_of hse output sys }
{
    match sys {
        3 => Err(Refusal::SysclkReserved),
        1 => needed_hse(hse),
        2 => pll_as_sysclk(output),
        _ => Ok(hsi()),
    }
}

// The divisor that makes 48 MHz of a PLL's output, doubled; 0 for none.
fn usb_divisor(part: Part, hz: u32) -> u8
    ensures { result ≡ usb_divisor part hz }
{
    match (part, hz) {
        (_, 48_000_000) => 2,
        (Part::V1 | Part::L1, 72_000_000) => 3,
        (Part::L1 | Part::V30x, 96_000_000) => 4,
        (Part::V30x, 144_000_000) => 6,
        _ => 0,
    }
}

fn usb(part: Part, output: Option<Frequency>) -> u8
    ensures { result ≡ usb_of part output }
{
    match output {
        None => 0,
        Some(x) => usb_divisor(part, x.hz),
    }
}

// The end of a check: SYSCLK, the six clocks and the USB divisor.
pub fn configured_clocks(
    part: Part,
    hse: Option<u32>,
    output: Option<Frequency>,
    codes: Codes,
) -> Result<ClockRecord, Refusal>
    ensures { says result ≡ configured_clocks_of part hse output codes.sys codes.prescalers.ahb codes.prescalers.apb1 codes.prescalers.apb2 }
{
    if too_wide(codes) {
        return Err(Refusal::CodeNotAllowed);
    }
    let system = sysclk(hse, output, codes.sys)?;
    let clocks = tree::bus_clocks(Family::from(part), system, codes.prescalers)?;
    Ok(ClockRecord {
        clocks,
        usb: usb(part, output),
    })
}

// SYSCLK in a decoder: the PLL is looked at only where it is in use, and code 3 is read as HSI.
fn decoded_sysclk(
    part: Part,
    hse: Option<u32>,
    setting: Setting,
    sws: u8,
) -> Result<Frequency, Refusal>
    ensures { says result ≡ decoded_sysclk_of part hse setting sws }
{
    match sws {
        1 => needed_hse(hse),
        2 => pll_output(part, hse, setting),
        _ => Ok(hsi()),
    }
}

// The end of a decoder: SYSCLK and the six clocks.
pub fn decoded_clocks(
    part: Part,
    hse: Option<u32>,
    setting: Setting,
    codes: Codes,
) -> Result<Clocks, Refusal>
    ensures { says result ≡ decoded_clocks_of part hse setting codes.sys codes.prescalers.ahb codes.prescalers.apb1 codes.prescalers.apb2 }
{
    if wide_setting(setting.prediv, setting.mul) | too_wide(codes) {
        return Err(Refusal::CodeNotAllowed);
    }
    let system = decoded_sysclk(part, hse, setting, codes.sys)?;
    tree::bus_clocks(Family::from(part), system, codes.prescalers)
}

// The source that a PLLSRC bit names: set, HSE. No `From<bool>`, since a bool alone doesn't say which bit it is.
pub fn source_of(pllsrc: bool) -> Source
    ensures { result ≡ source_of pllsrc }
{
    if pllsrc { Source::Hse } else { Source::Hsi }
}

// The code of the predivider that register fields name: HSE's is handed in, HSI is halved unless its bit is set.
fn prediv_code_in(pllsrc: bool, code: u8, hsipre: bool) -> u8
    ensures { result ≡ prediv_code_in pllsrc code hsipre }
{
    if pllsrc { code } else { u8::from(!hsipre) }
}

// The PLL's setting that register fields name, with the code of HSE's predivider.
pub fn setting_in(pllsrc: bool, code: u8, hsipre: bool, mul: u8) -> Setting
    ensures { result ≡ setting_in pllsrc code hsipre mul }
{
    Setting {
        source: source_of(pllsrc),
        prediv: prediv_code_in(pllsrc, code, hsipre),
        mul,
    }
}
