// CH32H4 for C: the clocks, each prescaler and the PLL's multipliers.
#![tactic(auto, unfolding(crate::specs::Calls::bus_words_of, crate::specs::Calls::clocks_ahb_of))]

ghost use Rattle.std.specs.Prelude.{◌≡◌};
ghost use Rattle.answer.specs.Answer.{gives};
ghost use Rattle.answer.specs.Said.{says};
ghost use Rattle.divider.specs.declared.Family.TheVariants.{H4};
ghost use Rattle.divider.specs.Divide.{fpre_divisor, by_ahb_of};
ghost use Rattle.divider.specs.Frequency.{whole, over};
ghost use Rattle.h4.specs.H4.{doubled_of};
ghost use Rattle.capi_give.specs.Given.{Given, GivenOne, two_words, seven_words};
ghost use Rattle.capi_h4.specs.Calls.{in_hertz, bus_words_of, clocks_ahb_of};

use answer::Refusal;
use divider::Frequency;
use h4::Prescale;
use tree::Clocks;

// A frequency as a number.
fn in_hertz(rate: Result<Frequency, Refusal>) -> Result<u32, Refusal>
    ensures { says result ≡ in_hertz (says rate) }
{
    Ok(rate?.hz)
}

// What the C call hands in, made a struct.
fn clocks(sysclk: u32, hpre: u8, fpre: u8, ppre1: u8, ppre2: u8) -> Result<(Clocks, u32), Refusal>
    ensures { says result ≡ clocks_ahb_of sysclk hpre fpre ppre1 ppre2 }
{
    let prescale = Prescale {
        hpre,
        fpre,
        ppre1,
        ppre2,
    };
    let (ahb, clocks) = h4::clocks_from_sysclk(divider::hertz(sysclk), prescale)?;
    Ok((clocks, ahb))
}

fn bus(hclk: u32, ppre: u8) -> Result<(u32, u32), Refusal>
    ensures { says result ≡ bus_words_of hclk ppre }
{
    let (pclk, tim) = h4::pclk_from_hclk(divider::hertz(hclk), ppre)?;
    Ok((pclk.hz, tim))
}

// The clocks of a SYSCLK and the codes of the four prescalers. Gives seven words: the six clocks, and the AHB clock.
// Refused by 32, then by 28.
#[unsafe(no_mangle)]
pub extern "C" fn wontabeli_h4_clocks(
    sysclk: u32,
    hpre: u8,
    fpre: u8,
    ppre1: u8,
    ppre2: u8,
    out: &mut [u32],
) -> u8
    ensures { Given 7 (seven_words (clocks_ahb_of sysclk hpre fpre ppre1 ppre2)) out.old out.new result }
{
    capi_give::give_seven(clocks(sysclk, hpre, fpre, ppre1, ppre2), out)
}

// The AHB clock, after HPRE. Refused by 28.
#[unsafe(no_mangle)]
pub extern "C" fn wontabeli_h4_ahb(sysclk: u32, hpre: u8, out: &mut u32) -> u8
    ensures { GivenOne (in_hertz (by_ahb_of H4 (whole sysclk) hpre)) out.old out.new result }
{
    capi_give::give_one(
        in_hertz(h4::ahb_from_sysclk(divider::hertz(sysclk), hpre)),
        out,
    )
}

// HCLK, after FPRE, whose low two bits count. Never refused.
#[unsafe(no_mangle)]
pub extern "C" fn wontabeli_h4_hclk(ahb: u32, fpre: u8, out: &mut u32) -> u8
    ensures { GivenOne (gives (over (whole ahb) (fpre_divisor fpre)).hz) out.old out.new result }
{
    let hclk = h4::hclk_from_ahb(divider::hertz(ahb), fpre);
    capi_give::give_one::<Refusal>(Ok(hclk.hz), out)
}

// A bus, after PPRE. Gives two words: PCLK, and its timers' clock. Refused by 32, then by 28.
#[unsafe(no_mangle)]
pub extern "C" fn wontabeli_h4_pclk(hclk: u32, ppre: u8, out: &mut [u32]) -> u8
    ensures { Given 2 (two_words (bus_words_of hclk ppre)) out.old out.new result }
{
    capi_give::give_two(bus(hclk, ppre), out)
}

// The PLL's multiplier by its position in document 003's list, doubled. Refused by 28.
#[unsafe(no_mangle)]
pub extern "C" fn wontabeli_h4_multiplier(position: u8, out: &mut u32) -> u8
    ensures { GivenOne (doubled_of position) out.old out.new result }
{
    capi_give::give_one(h4::pll_mul_x2(position), out)
}
