// CH32V407/CH32V467: the clock configuration and its check.
#![tactic(auto, using(crate::specs::AdcLaws::ratio_given), unfolding(crate::specs::Check::named, crate::specs::Check::rng_of, crate::specs::Check::hse_present_of, crate::specs::Check::main_of, crate::specs::Check::eth_of, crate::specs::Check::reference_of, crate::specs::Check::usb_hs_of, crate::specs::Check::sources_of, crate::specs::Check::sys_pll_input_of, crate::specs::Check::sysclk_of, crate::specs::Check::system_of, crate::specs::Check::adc_ratio_of, crate::specs::Check::limits_of, crate::specs::Check::adc_of, crate::specs::Check::check_of))]

ghost use Rattle.std.specs.Prelude.{◌≡◌};
ghost use Rattle.answer.specs.Said.{says};
ghost use Rattle.divider.specs.Facts.{Between};
ghost use Rattle.v4x7.specs.Check.{named_pll, named_hs_pll, named_ahb, named_apb, named_dividers, named_source, named_of, rng_of, hse_present_of, main_of, eth_of, reference_of, usb_hs_of, sources_of, sys_pll_input_of, sysclk_of, system_of, adc_ratio_of, limits_of, adc_of, check_of};

use answer::Refusal;
use divider::Frequency;
use tree::{Clocks, Hse, Prescalers};
use v4x7_rules::HSI_FREQUENCY;

#[derive(Clone, Copy, Debug, PartialEq, Eq)]
pub enum AdcClockSource {
    Hclk,
    // USBHS PLL divided by 1 through 32, before the APB2 and ADC prescalers.
    UsbHsPll { divisor: u8 },
}

// A configuration. Parts that it may lack are options, a PLL with its one code; every other choice is the number that the Rust's enum has for it, and no enum: a
// number without a name is refused by 28 (`check_of`).
#[derive(Clone, Copy, Debug, PartialEq, Eq)]
pub struct Config {
    pub hse: Option<Hse>,
    pub sys: u8,
    pub pll_src: u8,
    // The main PLL, with the code of its multiplier (`PllMul`).
    pub pll: Option<u8>,
    pub syspll_src: u8,
    pub syspll_pre: u8,
    // The USBHS PLL, with the code of its source (`HsPllSource`: 0 HSE, 1 HSI, 2 ETH).
    pub hspll: Option<u8>,
    pub ethpll: bool,
    pub ahb_pre: u8,
    pub apb1_pre: u8,
    pub apb2_pre: u8,
    pub rng_src: u8,
    pub adc_src: AdcClockSource,
    pub adc_pre: u8,
    pub adc_duty: u8,
}

// The clock record of an accepted configuration: the six clocks and, apart, the ADC's frequency in Hz.
#[derive(Clone, Copy, Debug, PartialEq, Eq)]
pub struct ClockRecord {
    pub clocks: Clocks,
    pub adc: u32,
}

// The codes that have a name. Each list is a pattern, and a pattern takes no argument, so each has a function of its own.

// The main PLL's 32 multipliers all have a name.
fn named_pll(pll: Option<u8>) -> bool
    ensures { result ≡ named_pll pll }
{
    matches!(pll, None | Some(0..=31))
}

fn named_hspll(hspll: Option<u8>) -> bool
    ensures { result ≡ named_hs_pll hspll }
{
    matches!(hspll, None | Some(0..=2))
}

fn named_ahb(code: u8) -> bool
    ensures { result ≡ named_ahb code }
{
    matches!(code, 0 | 8..=15)
}

fn named_apb(code: u8) -> bool
    ensures { result ≡ named_apb code }
{
    matches!(code, 0 | 4..=7)
}

fn named_source(code: u8) -> bool
    ensures { result ≡ named_source code }
{
    matches!(code, 0..=3 | 6)
}

// Stops at the first code without a name. Most of these codes are 0, which is named by its first test.
fn named_dividers(codes: Prescalers) -> bool
    ensures { result ≡ named_dividers codes.ahb codes.apb1 codes.apb2 }
{
    named_ahb(codes.ahb) && named_apb(codes.apb1) && named_apb(codes.apb2)
}

// The codes of a configuration's prescalers.
fn prescalers(c: Config) -> Prescalers
    ensures { (result.ahb ≡ c.ahb_pre) × (result.apb1 ≡ c.apb1_pre) × (result.apb2 ≡ c.apb2_pre) }
{
    Prescalers {
        ahb: c.ahb_pre,
        apb1: c.apb1_pre,
        apb2: c.apb2_pre,
    }
}

// Whether each code of a configuration, used or not, has a name in the Rust: 28 otherwise. The startup asks this too.
pub fn named_codes(c: Config) -> bool
    ensures { result ≡ named_of c }
{
    named_dividers(prescalers(c))
        && named_pll(c.pll)
        && named_hspll(c.hspll)
        && c.sys <= 2
        && c.pll_src <= 1
        && named_source(c.syspll_src)
        && c.syspll_pre <= 7
        && c.rng_src <= 2
        && c.adc_pre <= 3
        && c.adc_duty <= 2
}

// The RNG's PLL is configured; SYSCLK needs none. This and those below take the parts that their definitions take; `Config`, which holds them, would hide which.
fn rng(source: u8, hspll: Option<u8>, ethpll: bool) -> Result<(), Refusal>
    ensures { says result ≡ rng_of source hspll ethpll }
{
    if source == 0 {
        return Ok(());
    }
    if source == 1 && hspll.is_none() {
        return Err(Refusal::RngWithoutUsbhs);
    }
    if source == 2 && !ethpll {
        return Err(Refusal::RngWithoutEth);
    }
    Ok(())
}

// HSE, where there is one, is in range.
fn hse_present(hse: Option<u32>) -> Result<(), Refusal>
    ensures { says result ≡ hse_present_of hse }
{
    match hse {
        None => Ok(()),
        Some(hz) => v4x7_rules::hse_in_range(hz),
    }
}

// The main PLL's output where it is configured, used or not.
fn main_pll(hse: Option<u32>, source: u8, pll: Option<u8>) -> Result<Option<Frequency>, Refusal>
    ensures { says result ≡ main_of hse source pll }
{
    let Some(mul) = pll else {
        return Ok(None);
    };
    let output = v4x7_rules::main_pll(hse, source == 1, mul)?;
    Ok(Some(output))
}

fn eth(hse: Option<u32>, ethpll: bool) -> Result<(), Refusal>
    ensures { says result ≡ eth_of hse ethpll }
{
    if !ethpll {
        return Ok(());
    }
    v4x7_rules::eth_pll(hse)
}

// The reference that the USBHS PLL gets.
fn reference(hse: Option<u32>, ethpll: bool, source: u8) -> Result<Frequency, Refusal>
    ensures { says result ≡ reference_of hse ethpll source }
{
    if source == 0 {
        return v4x7_rules::used_hse(hse);
    }
    if source == 2 && !ethpll {
        return Err(Refusal::UsbhsWithoutEth);
    }
    Ok(divider::hertz(HSI_FREQUENCY))
}

fn usbhs(hse: Option<u32>, ethpll: bool, hspll: Option<u8>) -> Result<(), Refusal>
    ensures { says result ≡ usb_hs_of hse ethpll hspll }
{
    let Some(source) = hspll else {
        return Ok(());
    };
    let input = reference(hse, ethpll, source)?;
    v4x7_rules::reference_code(input.hz)?;
    Ok(())
}

// The sources, in order; answers the main PLL's output.
fn sources(c: Config) -> Result<Option<Frequency>, Refusal>
    ensures { says result ≡ sources_of c }
{
    let hse = tree::hse_frequency(c.hse);
    rng(c.rng_src, c.hspll, c.ethpll)?;
    hse_present(hse)?;
    let main = main_pll(hse, c.pll_src, c.pll)?;
    eth(hse, c.ethpll)?;
    usbhs(hse, c.ethpll, c.hspll)?;
    Ok(main)
}

// What SYSPLL takes in, from a PLL that is configured.
fn syspll_input(
    main: Option<Frequency>,
    hspll: Option<u8>,
    ethpll: bool,
    source: u8,
) -> Result<Frequency, Refusal>
    ensures { says result ≡ sys_pll_input_of main hspll ethpll source }
{
    // From the main PLL, whose output says itself whether there is one. Answered first, which saves a check up to 11 instructions (docs/BENCHMARKS.md).
    if source == 6 {
        return v4x7_rules::syspll_input(source, main);
    }
    if (source == 0 || source == 2) && hspll.is_none() {
        return Err(Refusal::SyspllWithoutUsbhs);
    }
    if (source == 1 || source == 3) && !ethpll {
        return Err(Refusal::SyspllWithoutEth);
    }
    v4x7_rules::syspll_input(source, main)
}

fn sysclk(main: Option<Frequency>, c: Config) -> Result<Frequency, Refusal>
    ensures { says result ≡ sysclk_of main c }
{
    if c.sys == 0 {
        return Ok(divider::hertz(HSI_FREQUENCY));
    }
    if c.sys == 1 {
        return v4x7_rules::used_hse(tree::hse_frequency(c.hse));
    }
    let input = syspll_input(main, c.hspll, c.ethpll, c.syspll_src)?;
    Ok(divider::by_one_more(input, c.syspll_pre))
}

// SYSCLK, once all sources are in order.
fn system(c: Config) -> Result<Frequency, Refusal>
    ensures { says result ≡ system_of c }
{
    let main = sources(c)?;
    sysclk(main, c)
}

// What the ADC divides, and by how much.
fn adc_ratio(sysclk: u32, c: Config) -> Result<(u32, u32), Refusal>
    ensures { says result ≡ adc_ratio_of sysclk c.ahb_pre c.apb2_pre c.adc_pre c.hspll c.adc_src }
{
    match c.adc_src {
        AdcClockSource::Hclk => v4x7_rules::adc_from_hclk(sysclk, c.ahb_pre, c.apb2_pre, c.adc_pre),
        AdcClockSource::UsbHsPll { divisor } => {
            if c.hspll.is_none() {
                return Err(Refusal::AdcWithoutUsbhs);
            }
            v4x7_rules::adc_from_usbhs(divisor, c.apb2_pre, c.adc_pre)
        }
    }
}

// The ADC's frequency, within its limits. The upper one is tested on the product: rounding down could hide what is above it.
fn adc_limits(source: u32, divisor: u32) -> Result<u32, Refusal>
    requires { Between 65536 divisor }
    ensures { says result ≡ limits_of source divisor }
{
    if 30_000_000 * u64::from(divisor) < u64::from(source) {
        return Err(Refusal::AdcTooFast);
    }
    let hz = source / divisor;
    if hz == 0 {
        return Err(Refusal::AdcTooSlow);
    }
    Ok(hz)
}

fn adc(sysclk: u32, c: Config) -> Result<u32, Refusal>
    ensures { says result ≡ adc_of sysclk c }
{
    let (source, divisor) = adc_ratio(sysclk, c)?;
    adc_limits(source, divisor)
}

impl Config {
    // The check: the configuration's clock record, or the first refusal in document 01's order.
    pub fn clocks(self) -> Result<ClockRecord, Refusal>
        ensures { says result ≡ check_of self }
    {
        if !named_codes(self) {
            return Err(Refusal::CodeNotAllowed);
        }
        let sysclk = system(self)?;
        let clocks = v4x7_rules::bus_clocks(sysclk, prescalers(self))?;
        let adc = adc(sysclk.hz, self)?;
        Ok(ClockRecord { clocks, adc })
    }
}
