// CH32V1 and CH32L1: the clock configuration and its check, the fields that starting it leaves, and their decoder.
// What it has in common with v30x is in pll32. What looks alike in both goes by its own fields and PLL, so a trait over them would name each part twice and join few lines.
#![tactic(auto, unfolding(pll32::specs::Pll::setting_in, crate::specs::V1::wide_config, crate::specs::V1::configured_pll_of, crate::specs::V1::check_of, crate::specs::V1::setting_in, crate::specs::V1::decode_of, crate::specs::V1::pll_fields, crate::specs::V1::written_of, crate::specs::V1::wide_fields, crate::specs::V1::fields_of))]

ghost use Rattle.std.specs.Prelude.{◌≡◌};
ghost use Rattle.answer.specs.Said.{says};
ghost use Rattle.v1.specs.V1.{part_of, config_codes, fields_codes, prediv_code, wide_pll, wide_config, configured_pll_of, check_of, wide_fields, setting_in, decode_of, pll_fields, written_of, fields_of};

use answer::Refusal;
use divider::Frequency;
use pll32::{ClockRecord, Codes, Part, Setting, Source};
use tree::{Clocks, Hse, Prescalers};

// The two chips, which differ in a multiplier and a USB divisor.
#[derive(Clone, Copy, Debug, PartialEq, Eq)]
pub enum Chip {
    V1,
    L1,
}

#[derive(Clone, Copy, Debug, PartialEq, Eq)]
pub enum PllPreDiv {
    Div1,
    Div2,
}

// The PLL, with its predivider and the code of its multiplier (`PllMul`).
#[derive(Clone, Copy, Debug, PartialEq, Eq)]
pub struct Pll {
    pub prediv: PllPreDiv,
    pub mul: u8,
}

// A configuration. `sys` and the prescalers are the codes of their fields: numbers, since one too wide is refused by 28 (`check_of`).
#[derive(Clone, Copy, Debug, PartialEq, Eq)]
pub struct Config {
    pub hse: Option<Hse>,
    pub sys: u8,
    pub pll_src: Source,
    pub pll: Option<Pll>,
    pub ahb_pre: u8,
    pub apb1_pre: u8,
    pub apb2_pre: u8,
}

// The register fields that the clocks depend on. PLLSRC set is HSE, PLLXTPRE set HSE by 2, the HSI predivider bit set HSI by 1.
#[derive(Clone, Copy, Debug, PartialEq, Eq)]
pub struct Fields {
    pub sws: u8,
    pub pllsrc: bool,
    pub pllxtpre: bool,
    pub pllmul: u8,
    pub hpre: u8,
    pub ppre1: u8,
    pub ppre2: u8,
    pub hsipre: bool,
}

impl From<Chip> for Part {
    ghost from_gives = { λ chip r. r ≡ part_of chip };

    fn from(chip: Chip) -> Part {
        match chip {
            Chip::V1 => Part::V1,
            Chip::L1 => Part::L1,
        }
    }
}

impl Config {
    fn codes(self) -> Codes
        ensures { result ≡ config_codes self }
    {
        Codes {
            sys: self.sys,
            prescalers: Prescalers {
                ahb: self.ahb_pre,
                apb1: self.apb1_pre,
                apb2: self.apb2_pre,
            },
        }
    }
}

impl Fields {
    fn codes(self) -> Codes
        ensures { result ≡ fields_codes self }
    {
        Codes {
            sys: self.sws,
            prescalers: Prescalers {
                ahb: self.hpre,
                apb1: self.ppre1,
                apb2: self.ppre2,
            },
        }
    }
}

// The code of a predivider: the divisor less one, which is its discriminant.
fn prediv_code(prediv: PllPreDiv) -> u8
    ensures { result ≡ prediv_code prediv }
{
    prediv as u8
}

fn wide_pll(pll: Option<Pll>) -> bool
    ensures { result ≡ wide_pll pll }
{
    matches!(pll, Some(p) if 16 <= p.mul)
}

// Whether a code of a configuration, used or not, is too wide for its field.
fn wide_config(c: Config) -> bool
    ensures { result ≡ wide_config c }
{
    wide_pll(c.pll) | pll32::too_wide(c.codes())
}

// The PLL's output, of a configured PLL.
fn configured_pll(
    part: Part,
    hse: Option<u32>,
    source: Source,
    pll: Option<Pll>,
) -> Result<Option<Frequency>, Refusal>
    ensures { says result ≡ configured_pll_of part hse source pll }
{
    let Some(Pll { prediv, mul }) = pll else {
        return Ok(None);
    };
    let setting = Setting {
        source,
        prediv: prediv_code(prediv),
        mul,
    };
    Ok(Some(pll32::pll_output(part, hse, setting)?))
}

// The check of a configuration: its clocks and the USB divisor, or the first refusal in document 01's order.
#[inline(always)]
pub fn check(chip: Chip, config: Config) -> Result<ClockRecord, Refusal>
    ensures { says result ≡ check_of chip config }
{
    if wide_config(config) {
        return Err(Refusal::CodeNotAllowed);
    }
    let part = Part::from(chip);
    let hse = tree::hse_frequency(config.hse);
    let output = configured_pll(part, hse, config.pll_src, config.pll)?;
    pll32::configured_clocks(part, hse, output, config.codes())
}

// HSE's predivider has a bit of its own, which is its code.
fn setting_in(f: Fields) -> Setting
    ensures { result ≡ setting_in f }
{
    pll32::setting_in(f.pllsrc, u8::from(f.pllxtpre), f.hsipre, f.pllmul)
}

// The decoder: the clocks that the fields make, with the frequency of HSE.
pub fn decode(chip: Chip, fields: Fields, hse: Option<u32>) -> Result<Clocks, Refusal>
    ensures { says result ≡ decode_of chip fields hse }
{
    pll32::decoded_clocks(Part::from(chip), hse, setting_in(fields), fields.codes())
}

// What starting the PLL writes: nothing where none is configured, and of the predividers the source's alone.
fn pll_fields(source: Source, pll: Option<Pll>, earlier: Fields) -> Fields
    ensures { result ≡ pll_fields source pll earlier }
{
    let Some(Pll { prediv, mul }) = pll else {
        return earlier;
    };
    // By its code, as the bits have it.
    let code = prediv_code(prediv);
    match source {
        Source::Hsi => Fields {
            pllsrc: false,
            pllmul: mul,
            hsipre: code == 0,
            ..earlier
        },
        Source::Hse => Fields {
            pllsrc: true,
            pllmul: mul,
            pllxtpre: code == 1,
            ..earlier
        },
    }
}

fn written_of(c: Config, earlier: Fields) -> Fields
    ensures { result ≡ written_of c earlier }
{
    Fields {
        sws: c.sys,
        hpre: c.ahb_pre,
        ppre1: c.apb1_pre,
        ppre2: c.apb2_pre,
        ..pll_fields(c.pll_src, c.pll, earlier)
    }
}

fn wide_fields(f: Fields) -> bool
    ensures { result ≡ wide_fields f }
{
    (16 <= f.pllmul) | pll32::too_wide(f.codes())
}

// The fields that the Rust's `init` leaves for an accepted configuration, over earlier fields.
pub fn init_fields(chip: Chip, config: Config, earlier: Fields) -> Result<Fields, Refusal>
    ensures { says result ≡ fields_of chip config earlier }
{
    if wide_fields(earlier) {
        return Err(Refusal::CodeNotAllowed);
    }
    check(chip, config)?;
    Ok(written_of(config, earlier))
}
