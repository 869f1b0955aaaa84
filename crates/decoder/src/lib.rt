// CH32V407/CH32V467: the clocks that the registers say, and the ADC and RNG queries.
#![tactic(auto, using(crate::specs::QueryLaws::ratio_given), unfolding(crate::specs::Decode::usb_hs_reference_of, crate::specs::Decode::usb_hs_pll_of, crate::specs::Decode::sys_pll_input_of, crate::specs::Decode::in_use_of, crate::specs::Decode::decode_of, crate::specs::Queries::adc_ratio_of, crate::specs::Queries::adc_query_of, crate::specs::Queries::rng_query_of))]

ghost use Rattle.std.specs.Prelude.{◌≡◌};
ghost use Rattle.answer.specs.Said.{says};
ghost use Rattle.decoder.specs.Decode.{usb_hs_reference_of, usb_hs_pll_of, sys_pll_input_of, in_use_of, decode_of};
ghost use Rattle.decoder.specs.Queries.{adc_ratio_of, adc_query_of, rng_query_of};

use answer::Refusal;
use divider::Frequency;
use image::Fields;
use tree::{Clocks, Prescalers};
use v4x7_rules::{ETH_PLL_FREQUENCY, HSI_FREQUENCY, USBHS_PLL_FREQUENCY};

// The reference that the USBHS PLL runs from, by its source.
fn usbhs_reference(source: u8, hse: Option<u32>) -> Result<Frequency, Refusal>
    ensures { says result ≡ usb_hs_reference_of source hse }
{
    match source {
        0 => v4x7_rules::used_hse(hse),
        1 => Ok(divider::hertz(HSI_FREQUENCY)),
        2 => {
            v4x7_rules::eth_pll(hse)?;
            Ok(divider::hertz(HSI_FREQUENCY))
        }
        _ => Err(Refusal::UsbhsSourceReserved),
    }
}

// Whether the USBHS PLL runs from a reference that it takes, with the reference's own code.
fn usbhs_pll(source: u8, code: u8, hse: Option<u32>) -> Result<(), Refusal>
    ensures { says result ≡ usb_hs_pll_of source code hse }
{
    let reference = usbhs_reference(source, hse)?;
    let right = v4x7_rules::reference_code(reference.hz)?;
    if right != code {
        return Err(Refusal::UsbhsCodeDiffers);
    }
    Ok(())
}

// What SYSPLL takes in, from a PLL that can run as the registers say.
fn syspll_input(f: Fields, hse: Option<u32>) -> Result<Frequency, Refusal>
    ensures { says result ≡ sys_pll_input_of f.cfgr2 f.cfgr0.pllsrc f.cfgr0.pllmul hse }
{
    let pll = f.cfgr2;
    match pll.syspllsrc {
        0 | 2 => {
            usbhs_pll(pll.usbhspllsrc, pll.usbhspllclk, hse)?;
            v4x7_rules::syspll_input(pll.syspllsrc, None)
        }
        1 | 3 => {
            v4x7_rules::eth_pll(hse)?;
            v4x7_rules::syspll_input(pll.syspllsrc, None)
        }
        6 => {
            let main = v4x7_rules::main_pll(hse, f.cfgr0.pllsrc, f.cfgr0.pllmul)?;
            v4x7_rules::syspll_input(pll.syspllsrc, Some(main))
        }
        _ => Err(Refusal::SyspllSourceReserved),
    }
}

// SYSCLK, by the clock that SWS says is in use.
fn sysclk(f: Fields, hse: Option<u32>) -> Result<Frequency, Refusal>
    ensures { says result ≡ in_use_of f hse }
{
    match f.seen.sws {
        0 => Ok(divider::hertz(HSI_FREQUENCY)),
        1 => v4x7_rules::used_hse(hse),
        2 => {
            let input = syspll_input(f, hse)?;
            Ok(divider::by_one_more(input, f.cfgr2.sysplldiv))
        }
        _ => Err(Refusal::SysclkReserved),
    }
}

// The six clocks that the fields say, or the first refusal in document 01's order.
pub fn decode(f: Fields, hse: Option<u32>) -> Result<Clocks, Refusal>
    ensures { says result ≡ decode_of f hse }
{
    if !image::in_width(f) {
        return Err(Refusal::CodeNotAllowed);
    }
    let sys = sysclk(f, hse)?;
    let codes = Prescalers {
        ahb: f.cfgr0.hpre,
        apb1: f.cfgr0.ppre1,
        apb2: f.cfgr0.ppre2,
    };
    v4x7_rules::bus_clocks(sys, codes)
}

// What the ADC divides, and by how much: the USBHS PLL where ADCSRC is set, else the SYSCLK handed in.
fn adc_ratio(f: Fields, sysclk: u32) -> Result<(u32, u32), Refusal>
    ensures { says result ≡ adc_ratio_of f sysclk }
{
    if f.cfgr0.adcsrc {
        let divisor = f.cfgr3.adc_clkdiv;
        if 32 <= divisor {
            return Err(Refusal::CodeNotAllowed);
        }
        return v4x7_rules::adc_from_usbhs(divisor + 1, f.cfgr0.ppre2, f.cfgr0.adcpre);
    }
    v4x7_rules::adc_from_hclk(sysclk, f.cfgr0.hpre, f.cfgr0.ppre2, f.cfgr0.adcpre)
}

// The ADC's frequency, or none where the USBHS PLL that it runs from isn't ready. It checks no limit.
pub fn adc_frequency(f: Fields, sysclk: u32) -> Result<Option<u32>, Refusal>
    ensures { says result ≡ adc_query_of f sysclk }
{
    if !image::in_width(f) {
        return Err(Refusal::CodeNotAllowed);
    }
    if f.cfgr0.adcsrc && !f.seen.usbhs_pllrdy {
        return Ok(None);
    }
    let (source, divisor) = adc_ratio(f, sysclk)?;
    Ok(Some(source / divisor))
}

// The RNG's source: the SYSCLK handed in, or a PLL where it is ready.
pub fn rng_source_frequency(f: Fields, sysclk: u32) -> Result<Option<u32>, Refusal>
    ensures { says result ≡ rng_query_of f sysclk }
{
    if !image::in_width(f) {
        return Err(Refusal::CodeNotAllowed);
    }
    if !f.cfgr2.rngsrc {
        return Ok(Some(sysclk));
    }
    if f.cfgr2.i2spllsrc {
        Ok(f.seen.eth_pllrdy.then_some(ETH_PLL_FREQUENCY))
    } else {
        Ok(f.seen.usbhs_pllrdy.then_some(USBHS_PLL_FREQUENCY))
    }
}
