// The 28 steps of the V4x7 startup: which of them a configuration has, and what each writes, waits for, reads back or compares. The startup has tested
// the codes that these take.
ghost use Rattle.std.specs.Prelude.{◌≡◌};
ghost use Rattle.startup.specs.Writes.{hsi_on, switch, gate, all_off, bypass, hse_on, eth_on, reference, code_of, usb_hs_source, usb_hs_on, main_source, main_on, mode_of, flash_mode, sys_pll, buses, from_usb_hs, adc_divisor};
ghost use Rattle.startup.specs.Steps.{all_clear, agrees_of, listed_of, work_of};

use image::{Fields, Seen};
use tree::{Clocks, Hse};
use v4x7::{AdcClockSource, Config};
use v4x7_rules::HSI_FREQUENCY;

// What comes of a step.
#[derive(Clone, Copy, Debug, PartialEq, Eq)]
pub enum Work {
    // The fields, with the step's writes done.
    Wrote(Fields),
    // A wait, and whether the reading meets it.
    Waits(bool),
    // One reading of SCKMOD, and what it has to show.
    Reads(u8),
    // The comparison after the switch, and whether the clocks agree.
    Compares(bool),
}

// Whether USBHS feeds the ADC: a function for the name that its definition has.
fn from_usbhs(adc: AdcClockSource) -> bool
    ensures { result ≡ from_usb_hs adc }
{
    matches!(adc, AdcClockSource::UsbHsPll { .. })
}

// Whether a step is listed and its part is there: steps of absent parts are skipped. A match, as in `perform`: document 01's list, a line for each part.
#[tactic(auto, using(crate::proofs::Shape::listed_by), unfolding(crate::specs::Steps::listed_of))]
pub fn listed(config: Config, step: u8) -> bool
    ensures { result ≡ listed_of config step }
{
    match step {
        1..=7 | 19..=23 | 26..=28 => true,
        8..=10 => config.hse.is_some(),
        11..=12 => config.ethpll,
        13..=15 => config.hspll.is_some(),
        16..=18 => config.pll.is_some(),
        24 => from_usbhs(config.adc_src),
        25 => config.sys == 2,
        _ => false,
    }
}

// The writes. Several set one field each: a field can't be a parameter, and a closure that sets it is no shorter.

fn hsi_on(mut f: Fields) -> Fields
    ensures { result ≡ hsi_on f }
{
    f.ctlr.hsion = true;
    f
}

fn switch_to(mut f: Fields, sw: u8) -> Fields
    ensures { result ≡ switch sw f }
{
    f.cfgr0.sw = sw;
    f
}

fn syspll_gate(mut f: Fields, on: bool) -> Fields
    ensures { result ≡ gate on f }
{
    f.cfgr2.syspll_gate = on;
    f
}

fn all_off(mut f: Fields) -> Fields
    ensures { result ≡ all_off f }
{
    f.ctlr.csson = false;
    f.ctlr.pllon = false;
    f.ctlr.usbhs_pllon = false;
    f.ctlr.eth_pllon = false;
    f.ctlr.hseon = false;
    f
}

// A function for the name that its definition has.
fn all_clear(s: Seen) -> bool
    ensures { result ≡ all_clear s }
{
    !s.pllrdy & !s.usbhs_pllrdy & !s.eth_pllrdy & !s.hserdy
}

fn hse_bypass(mut f: Fields, hse: Option<Hse>) -> Fields
    ensures { result ≡ bypass hse f }
{
    if let Some(crystal) = hse {
        f.ctlr.hsebyp = crystal.bypass;
    }
    f
}

fn hse_on(mut f: Fields) -> Fields
    ensures { result ≡ hse_on f }
{
    f.ctlr.hseon = true;
    f
}

fn eth_on(mut f: Fields) -> Fields
    ensures { result ≡ eth_on f }
{
    f.ctlr.eth_pllon = true;
    f
}

// The frequency that the USBHS PLL gets.
fn usbhs_reference(hse: Option<Hse>, source: u8) -> u32
    ensures { result ≡ reference hse source }
{
    if source != 0 {
        return HSI_FREQUENCY;
    }
    tree::hse_frequency(hse).unwrap_or(0)
}

// The code of that frequency. An accepted configuration has one.
#[tactic(auto, using(crate::proofs::Codes::code_small))]
fn usbhs_code(hse: Option<Hse>, source: u8) -> u8
    ensures { result ≡ code_of hse source }
{
    v4x7_rules::reference_code(usbhs_reference(hse, source)).unwrap_or(0)
}

fn usbhs_source(mut f: Fields, hse: Option<Hse>, hspll: Option<u8>) -> Fields
    ensures { result ≡ usb_hs_source hse hspll f }
{
    if let Some(source) = hspll {
        f.cfgr2.usbhspllsrc = source;
        f.cfgr2.usbhspllclk = usbhs_code(hse, source);
    }
    f
}

fn usbhs_on(mut f: Fields) -> Fields
    ensures { result ≡ usb_hs_on f }
{
    f.ctlr.usbhs_pllon = true;
    f
}

fn main_source(mut f: Fields, source: u8, pll: Option<u8>) -> Fields
    ensures { result ≡ main_source source pll f }
{
    if let Some(mul) = pll {
        f.cfgr0.pllsrc = source == 1;
        f.cfgr0.pllmul = mul;
    }
    f
}

fn main_on(mut f: Fields) -> Fields
    ensures { result ≡ main_on f }
{
    f.ctlr.pllon = true;
    f
}

// SCKMOD for an HCLK.
fn sckmod(hclk: u32) -> u8
    ensures { result ≡ mode_of hclk }
{
    u8::from(100_000_000 < hclk)
}

fn flash_mode(mut f: Fields, mode: u8) -> Fields
    ensures { result ≡ flash_mode mode f }
{
    f.flash.sckmod = mode;
    f.flash.lock = true;
    f.flash.flock = true;
    f
}

// SYSPLL's source and divisor, and the RNG's source. I2SPLLSRC serves the I2S clocks too, and is kept where the RNG takes SYSCLK.
fn syspll(mut f: Fields, c: Config) -> Fields
    ensures { result ≡ sys_pll c f }
{
    f.cfgr2.syspllsrc = c.syspll_src;
    f.cfgr2.sysplldiv = c.syspll_pre;
    f.cfgr2.rngsrc = c.rng_src != 0;
    if c.rng_src != 0 {
        f.cfgr2.i2spllsrc = c.rng_src == 2;
    }
    f
}

fn prescalers(mut f: Fields, c: Config) -> Fields
    ensures { result ≡ buses c f }
{
    f.cfgr0.hpre = c.ahb_pre;
    f.cfgr0.ppre1 = c.apb1_pre;
    f.cfgr0.ppre2 = c.apb2_pre;
    f.cfgr0.adcpre = c.adc_pre;
    f.cfgr0.adcsrc = from_usbhs(c.adc_src);
    f.cfgr0.adc_duty = c.adc_duty;
    f
}

// The ADC's USBHS divisor less one. An accepted configuration's is at least 1.
fn adc_divisor(mut f: Fields, adc: AdcClockSource) -> Fields
    ensures { result ≡ adc_divisor adc f }
{
    if let AdcClockSource::UsbHsPll { divisor } = adc {
        f.cfgr3.adc_clkdiv = divisor.saturating_sub(1);
    }
    f
}

// Whether the fields, decoded with the same HSE, give the clocks that the check promised.
#[tactic(auto, unfolding(crate::specs::Steps::agrees_of))]
fn agrees(config: Config, promised: Clocks, fields: Fields) -> bool
    ensures { result ≡ agrees_of config promised fields }
{
    decoder::decode(fields, tree::hse_frequency(config.hse)) == Ok(promised)
}

// What comes of a step with these fields and this reading, the check having promised these clocks. None where no step has this number.
// A match, and no list of closures: it is document 01's list of the 28 steps, a line for each. A struct of the five parameters would be built for each call and
// taken apart here.
#[tactic(auto, unfolding(crate::specs::Steps::work_of))]
pub fn perform(
    config: Config,
    promised: Clocks,
    step: u8,
    fields: Fields,
    seen: Seen,
) -> Option<Work>
    ensures { result ≡ work_of config promised step fields seen }
{
    let work = match step {
        1 => Work::Wrote(hsi_on(fields)),
        2 => Work::Waits(seen.hsirdy),
        3 => Work::Wrote(switch_to(fields, 0)),
        4 => Work::Waits(seen.sws == 0),
        5 => Work::Wrote(syspll_gate(fields, false)),
        6 => Work::Wrote(all_off(fields)),
        7 => Work::Waits(all_clear(seen)),
        8 => Work::Wrote(hse_bypass(fields, config.hse)),
        9 => Work::Wrote(hse_on(fields)),
        10 => Work::Waits(seen.hserdy),
        11 => Work::Wrote(eth_on(fields)),
        12 => Work::Waits(seen.eth_pllrdy),
        13 => Work::Wrote(usbhs_source(fields, config.hse, config.hspll)),
        14 => Work::Wrote(usbhs_on(fields)),
        15 => Work::Waits(seen.usbhs_pllrdy),
        16 => Work::Wrote(main_source(fields, config.pll_src, config.pll)),
        17 => Work::Wrote(main_on(fields)),
        18 => Work::Waits(seen.pllrdy),
        // The host writes the keys.
        19 => Work::Wrote(fields),
        20 => Work::Wrote(flash_mode(fields, sckmod(promised.hclk))),
        21 => Work::Reads(sckmod(promised.hclk)),
        22 => Work::Wrote(syspll(fields, config)),
        23 => Work::Wrote(prescalers(fields, config)),
        24 => Work::Wrote(adc_divisor(fields, config.adc_src)),
        25 => Work::Wrote(syspll_gate(fields, true)),
        26 => Work::Wrote(switch_to(fields, config.sys)),
        27 => Work::Waits(seen.sws == config.sys),
        28 => Work::Compares(agrees(config, promised, fields)),
        _ => return None,
    };
    Some(work)
}
