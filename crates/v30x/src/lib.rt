// CH32V30x: the clock configuration and its check, the fields that starting it leaves, and their decoder.
// What it has in common with v1 is in pll32. What looks alike in both goes by its own fields and PLL, so a trait over them would name each part twice and join few lines.
#![tactic(auto, unfolding(pll32::specs::Pll::setting_in, crate::specs::V30x::wide_config, crate::specs::V30x::pll_from_oscillator_of, crate::specs::V30x::configured_pll_of, crate::specs::V30x::usbhs_of, crate::specs::V30x::sources_of, crate::specs::V30x::check_of, crate::specs::V30x::setting_in, crate::specs::V30x::wide_fields, crate::specs::V30x::decode_of, crate::specs::V30x::pll_fields, crate::specs::V30x::written_of, crate::specs::V30x::fields_of))]

ghost use Rattle.std.specs.Prelude.{◌≡◌};
ghost use Rattle.answer.specs.Said.{says};
ghost use Rattle.v30x.specs.V30x.{config_codes, fields_codes, wide_pll, wide_hs_pll, wide_config, pll_from_oscillator_of, configured_pll_of, reference_allowed, usbhs_of, sources_of, check_of, wide_fields, setting_in, decode_of, pll_fields, written_of, fields_of};

use answer::Refusal;
use divider::Frequency;
use pll32::{ClockRecord, Codes, Part, Setting, Source};
use tree::{Clocks, Hse, Prescalers};

// What feeds the PLL. PLL2 is not taken: asked for, it is refused.
#[derive(Clone, Copy, Debug, PartialEq, Eq)]
pub enum PllSource {
    Hsi,
    Hse,
    Pll2,
}

// The PLL, with the codes of its predivider (`PllPreDiv`, the divisor less one) and of its multiplier (`PllMul`).
#[derive(Clone, Copy, Debug, PartialEq, Eq)]
pub struct Pll {
    pub prediv: u8,
    pub mul: u8,
}

// A configuration. `sys` and the prescalers are the codes of their fields, numbers, since one too wide is refused by 28 (`check_of`); `hspll` is that of the USBHS PLL's prescaler (`HsPllPrescaler`, the divisor less one).
// PLL2 and PLL3 are not taken, so nothing of them is kept but that they are asked for (`pllx`), which is refused.
#[derive(Clone, Copy, Debug, PartialEq, Eq)]
pub struct Config {
    pub hse: Option<Hse>,
    pub sys: u8,
    pub pll_src: PllSource,
    pub pll: Option<Pll>,
    pub pllx: bool,
    pub ahb_pre: u8,
    pub apb1_pre: u8,
    pub apb2_pre: u8,
    pub hspll_src: Source,
    pub hspll: Option<u8>,
}

// The register fields that the clocks depend on. PLLSRC set is HSE, PREDIV1SRC set PLL2, the HSI predivider bit set HSI by 1.
#[derive(Clone, Copy, Debug, PartialEq, Eq)]
pub struct Fields {
    pub sws: u8,
    pub pllsrc: bool,
    pub prediv1: u8,
    pub prediv1src: bool,
    pub pllmul: u8,
    pub hpre: u8,
    pub ppre1: u8,
    pub ppre2: u8,
    pub hsipre: bool,
}

impl Config {
    fn codes(self) -> Codes
        ensures { result ≡ config_codes self }
    {
        Codes {
            sys: self.sys,
            prescalers: Prescalers {
                ahb: self.ahb_pre,
                apb1: self.apb1_pre,
                apb2: self.apb2_pre,
            },
        }
    }
}

impl Fields {
    fn codes(self) -> Codes
        ensures { result ≡ fields_codes self }
    {
        Codes {
            sys: self.sws,
            prescalers: Prescalers {
                ahb: self.hpre,
                apb1: self.ppre1,
                apb2: self.ppre2,
            },
        }
    }
}

fn wide_pll(pll: Option<Pll>) -> bool
    ensures { result ≡ wide_pll pll }
{
    matches!(pll, Some(p) if pll32::wide_setting(p.prediv, p.mul))
}

fn wide_hspll(hspll: Option<u8>) -> bool
    ensures { result ≡ wide_hs_pll hspll }
{
    matches!(hspll, Some(pre) if 8 <= pre)
}

// Whether a code of a configuration, used or not, is too wide for its field.
fn wide_config(c: Config) -> bool
    ensures { result ≡ wide_config c }
{
    wide_pll(c.pll) | wide_hspll(c.hspll) | pll32::too_wide(c.codes())
}

// The PLL's output, fed by HSI or HSE.
fn pll_from_oscillator(
    hse: Option<u32>,
    source: Source,
    pll: Pll,
) -> Result<Option<Frequency>, Refusal>
    ensures { says result ≡ pll_from_oscillator_of hse source pll.prediv pll.mul }
{
    let Pll { prediv, mul } = pll;
    let setting = Setting {
        source,
        prediv,
        mul,
    };
    let output = pll32::pll_output(Part::V30x, hse, setting)?;
    if (source == Source::Hsi) & (2 <= prediv) {
        return Err(Refusal::HsiPredivider);
    }
    Ok(Some(output))
}

// The PLL's output, of a configured PLL.
fn configured_pll(
    hse: Option<u32>,
    source: PllSource,
    pll: Option<Pll>,
) -> Result<Option<Frequency>, Refusal>
    ensures { says result ≡ configured_pll_of hse source pll }
{
    let Some(pll) = pll else {
        return Ok(None);
    };
    match source {
        PllSource::Hsi => pll_from_oscillator(hse, Source::Hsi, pll),
        PllSource::Hse => pll_from_oscillator(hse, Source::Hse, pll),
        PllSource::Pll2 => Err(Refusal::Pll2OrPll3),
    }
}

// A frequency that the USBHS PLL takes as its reference.
fn reference_allowed(hz: u32) -> bool
    ensures { result ≡ reference_allowed hz }
{
    matches!(hz, 3_000_000 | 4_000_000 | 5_000_000 | 8_000_000)
}

// The USBHS PLL's reference, if one is configured.
fn usbhs(hse: Option<u32>, source: Source, hspll: Option<u8>) -> Result<(), Refusal>
    ensures { says result ≡ usbhs_of hse source hspll }
{
    let Some(pre) = hspll else {
        return Ok(());
    };
    let feeding = pll32::source_frequency(source, hse)?;
    let reference = divider::by_one_more(feeding, pre);
    if !reference_allowed(reference.hz) {
        return Err(Refusal::UsbhsReference);
    }
    Ok(())
}

// The PLLs, in order; the main PLL's output.
fn sources(hse: Option<u32>, c: Config) -> Result<Option<Frequency>, Refusal>
    ensures { says result ≡ sources_of hse c }
{
    if c.pllx {
        return Err(Refusal::Pll2OrPll3);
    }
    let output = configured_pll(hse, c.pll_src, c.pll)?;
    usbhs(hse, c.hspll_src, c.hspll)?;
    Ok(output)
}

// The check of a configuration: its clocks and the USB divisor, or the first refusal in document 01's order.
pub fn check(config: Config) -> Result<ClockRecord, Refusal>
    ensures { says result ≡ check_of config }
{
    if wide_config(config) {
        return Err(Refusal::CodeNotAllowed);
    }
    let hse = tree::hse_frequency(config.hse);
    let output = sources(hse, config)?;
    pll32::configured_clocks(Part::V30x, hse, output, config.codes())
}

fn setting_in(f: Fields) -> Setting
    ensures { result ≡ setting_in f }
{
    pll32::setting_in(f.pllsrc, f.prediv1, f.hsipre, f.pllmul)
}

fn wide_fields(f: Fields) -> bool
    ensures { result ≡ wide_fields f }
{
    pll32::wide_setting(f.prediv1, f.pllmul) | pll32::too_wide(f.codes())
}

// The decoder: the clocks that the fields make, with the frequency of HSE.
pub fn decode(fields: Fields, hse: Option<u32>) -> Result<Clocks, Refusal>
    ensures { says result ≡ decode_of fields hse }
{
    if wide_fields(fields) {
        return Err(Refusal::CodeNotAllowed);
    }
    if (fields.sws == 2) & fields.pllsrc & fields.prediv1src {
        return Err(Refusal::Pll2OrPll3);
    }
    pll32::decoded_clocks(Part::V30x, hse, setting_in(fields), fields.codes())
}

// What starting the PLL writes: nothing where none is configured, and of the predividers the source's alone. PLL2 is never started.
fn pll_fields(source: PllSource, pll: Option<Pll>, earlier: Fields) -> Fields
    ensures { result ≡ pll_fields source pll earlier }
{
    let Some(Pll { prediv, mul }) = pll else {
        return earlier;
    };
    match source {
        PllSource::Hsi => Fields {
            pllsrc: false,
            pllmul: mul,
            hsipre: prediv == 0,
            ..earlier
        },
        PllSource::Hse => Fields {
            pllsrc: true,
            pllmul: mul,
            prediv1src: false,
            prediv1: prediv,
            ..earlier
        },
        PllSource::Pll2 => earlier,
    }
}

fn written_of(c: Config, earlier: Fields) -> Fields
    ensures { result ≡ written_of c earlier }
{
    Fields {
        sws: c.sys,
        hpre: c.ahb_pre,
        ppre1: c.apb1_pre,
        ppre2: c.apb2_pre,
        ..pll_fields(c.pll_src, c.pll, earlier)
    }
}

// The fields that the Rust's `init` leaves for an accepted configuration, over earlier fields.
pub fn init_fields(config: Config, earlier: Fields) -> Result<Fields, Refusal>
    ensures { says result ≡ fields_of config earlier }
{
    if wide_fields(earlier) {
        return Err(Refusal::CodeNotAllowed);
    }
    check(config)?;
    Ok(written_of(config, earlier))
}
