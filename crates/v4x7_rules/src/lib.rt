// The frequency rules of CH32V407/CH32V467, as the check of a configuration and the decoder of the registers share them.
//
// Where a rule needs HSE, HSE must be there and in range. The check has tested the range before, the decoder tests it where HSE is used.
#![tactic(auto, using(divider::specs::Laws::ahb_given, divider::specs::Laws::apb_given), unfolding(crate::specs::Rules::hse_in_range, crate::specs::Rules::used_hse_of, crate::specs::Rules::main_pll_input, crate::specs::Rules::main_pll_of, crate::specs::Rules::eth_pll_of, crate::specs::Rules::reference_code_of, crate::specs::Rules::two_thirds, crate::specs::Rules::sys_pll_of, crate::specs::Rules::buses_of, crate::specs::Rules::total_of, crate::specs::Rules::adc_from_hclk_of, crate::specs::Rules::adc_from_usb_hs_of))]

ghost use Rattle.std.specs.Prelude.{◌≡◌, ◌≤◌, ◌<◌};
ghost use Rattle.answer.specs.Said.{says};
ghost use Rattle.v4x7_rules.specs.Rules.{hse_in_range, used_hse_of, main_pll_input, main_pll_of, eth_pll_of, reference_code_of, two_thirds, main_output, sys_pll_of, buses_of, total_of, adc_from_hclk_of, adc_from_usb_hs_of};

use answer::Refusal;
use divider::{Family, Frequency};
use tree::{Clocks, Prescalers};

pub const HSI_FREQUENCY: u32 = 20_000_000;

pub const USBHS_PLL_FREQUENCY: u32 = 480_000_000;

pub const ETH_PLL_FREQUENCY: u32 = 500_000_000;

const PLL_MUL_X2: [u8; 32] = [
    16, 18, 20, 22, 24, 25, 26, 27, 28, 29, 30, 31, 32, 33, 34, 35, 36, 37, 38, 39, 40, 42, 44, 48,
    52, 56, 60, 64, 68, 72, 76, 80,
];

// Whether HSE's frequency is one that the chip takes.
pub fn hse_in_range(hz: u32) -> Result<(), Refusal>
    ensures { says result ≡ hse_in_range hz }
{
    if hz < 5_000_000 || 32_000_000 < hz {
        return Err(Refusal::HseOutOfRange);
    }
    Ok(())
}

// HSE's frequency, where HSE is used.
pub fn used_hse(hse: Option<u32>) -> Result<Frequency, Refusal>
    ensures { says result ≡ used_hse_of hse }
{
    let hz = hse.ok_or(Refusal::HseMissing)?;
    hse_in_range(hz)?;
    Ok(divider::hertz(hz))
}

// What feeds the main PLL: HSE where its source bit is set, else HSI.
fn main_pll_input(hse: Option<u32>, source: bool) -> Result<Frequency, Refusal>
    ensures { says result ≡ main_pll_input hse source }
{
    if source {
        used_hse(hse)
    } else {
        Ok(divider::hertz(HSI_FREQUENCY))
    }
}

// The main PLL's output, by its source bit and the code of its multiplier.
pub fn main_pll(hse: Option<u32>, source: bool, mul: u8) -> Result<Frequency, Refusal>
    ensures { says result ≡ main_pll_of hse source mul }
{
    if 32 <= mul {
        return Err(Refusal::CodeNotAllowed);
    }
    let input = main_pll_input(hse, source)?;
    let output = tree::product(input, PLL_MUL_X2[usize::from(mul)]);
    if output.hz < 100_000_000 || 400_000_000 < output.hz {
        return Err(Refusal::PllOutOfRange);
    }
    // It fits, as is proved; `try_from` would have an error that never comes.
    Ok(divider::hertz(output.hz as u32))
}

// Whether the ETH PLL can run: it takes HSE at 25 MHz alone.
pub fn eth_pll(hse: Option<u32>) -> Result<(), Refusal>
    ensures { says result ≡ eth_pll_of hse }
{
    let input = used_hse(hse)?;
    if input.hz != 25_000_000 {
        return Err(Refusal::EthNeeds25Mhz);
    }
    Ok(())
}

// The code of a reference that the USBHS PLL takes.
pub fn reference_code(hz: u32) -> Result<u8, Refusal>
    ensures { says result ≡ reference_code_of hz }
{
    match hz {
        25_000_000 => Ok(0),
        20_000_000 => Ok(1),
        24_000_000 => Ok(2),
        32_000_000 => Ok(3),
        _ => Err(Refusal::UsbhsReference),
    }
}

// Two thirds of a PLL: the product first, since a third may be rounded.
fn two_thirds(hz: u32) -> Frequency
    requires { hz ≤ 500000000 }
    ensures { result ≡ two_thirds hz }
{
    divider::by_one_more(divider::hertz(hz * 2), 2)
}

// The main PLL's output, where there is one. `pll32` has such a line with a refusal of its own.
fn main_output(main: Option<Frequency>) -> Result<Frequency, Refusal>
    ensures { says result ≡ main_output main }
{
    main.ok_or(Refusal::SyspllWithoutPll)
}

// What SYSPLL takes in by its source, before its divisor; `main` is the main PLL's output.
pub fn syspll_input(source: u8, main: Option<Frequency>) -> Result<Frequency, Refusal>
    ensures { says result ≡ sys_pll_of source main }
{
    if 8 <= source {
        return Err(Refusal::CodeNotAllowed);
    }
    match source {
        0 => Ok(divider::hertz(USBHS_PLL_FREQUENCY)),
        1 => Ok(divider::hertz(ETH_PLL_FREQUENCY)),
        2 => Ok(two_thirds(USBHS_PLL_FREQUENCY)),
        3 => Ok(two_thirds(ETH_PLL_FREQUENCY)),
        6 => main_output(main),
        _ => Err(Refusal::SyspllSourceReserved),
    }
}

// The six clocks of a SYSCLK, with HCLK within its limit.
pub fn bus_clocks(sysclk: Frequency, codes: Prescalers) -> Result<Clocks, Refusal>
    ensures { says result ≡ buses_of sysclk codes.ahb codes.apb1 codes.apb2 }
{
    let clocks = tree::bus_clocks(Family::V4x7, sysclk, codes)?;
    if 200_000_000 < clocks.hclk {
        return Err(Refusal::HclkTooFast);
    }
    Ok(clocks)
}

// The ADC's whole divisor: its source's own, APB2's, and 2, 4, 6 or 8. The codes go one by one here and in the two below, as `total_of` and its callers take them: a
// struct of two would be made in each of four calls.
fn adc_divisor(first: u32, ppre2: u8, adcpre: u8) -> Result<u32, Refusal>
    requires { first ≤ 512 }
    ensures { says result ≡ total_of first ppre2 adcpre }
{
    if 4 <= adcpre {
        return Err(Refusal::CodeNotAllowed);
    }
    let apb2 = divider::apb(ppre2)?;
    Ok(first * apb2 * (2 * (u32::from(adcpre) + 1)))
}

// The ADC on HCLK: SYSCLK, and its whole divisor by the AHB divisor, APB2's and its own.
pub fn adc_from_hclk(sysclk: u32, hpre: u8, ppre2: u8, adcpre: u8) -> Result<(u32, u32), Refusal>
    ensures { says result ≡ adc_from_hclk_of sysclk hpre ppre2 adcpre }
{
    let ahb = divider::ahb(Family::V4x7, hpre)?;
    let total = adc_divisor(ahb, ppre2, adcpre)?;
    Ok((sysclk, total))
}

// The ADC on the USBHS PLL: 480 MHz, and its whole divisor by a divisor, APB2's and its own.
pub fn adc_from_usbhs(divisor: u8, ppre2: u8, adcpre: u8) -> Result<(u32, u32), Refusal>
    ensures { says result ≡ adc_from_usb_hs_of divisor ppre2 adcpre }
{
    let total = adc_divisor(u32::from(divisor), ppre2, adcpre)?;
    if divisor < 1 || 32 < divisor {
        return Err(Refusal::AdcDivisor);
    }
    Ok((USBHS_PLL_FREQUENCY, total))
}
