// CH32H4: AHB, HCLK and PCLK by their codes, the PLL's multipliers, and the clocks of one configuration.
#![tactic(auto, unfolding(crate::specs::H4::pclk_of, crate::specs::H4::doubled_of, crate::specs::H4::prescaled_of))]

ghost use Rattle.std.specs.Prelude.{◌≡◌};
ghost use Rattle.answer.specs.Said.{says};
ghost use Rattle.divider.specs.declared.Family.TheVariants.{H4};
ghost use Rattle.divider.specs.Divide.{fpre_divisor, by_ahb_of};
ghost use Rattle.divider.specs.Frequency.{over};
ghost use Rattle.h4.specs.H4.{pclk_of, doubled_of, prescaled_of};

use answer::Refusal;
use divider::{Family, Frequency};
use tree::Clocks;

// The codes of one configuration's prescalers: numbers, since one too wide is refused by 28 (`prescaled_of`).
#[derive(Clone, Copy, Debug, PartialEq, Eq)]
pub struct Prescale {
    pub hpre: u8,
    pub fpre: u8,
    pub ppre1: u8,
    pub ppre2: u8,
}

// By position in the Rust's list, doubled so that the halves stay whole.
const PLL_MUL_X2: [u32; 32] = [
    8, 12, 14, 16, 17, 18, 19, 20, 21, 22, 23, 24, 25, 26, 28, 30, 32, 34, 36, 38, 40, 44, 48, 52,
    56, 60, 64, 68, 72, 76, 80, 118,
];

// The AHB clock, after HPRE.
pub fn ahb_from_sysclk(sysclk: Frequency, hpre: u8) -> Result<Frequency, Refusal>
    ensures { says result ≡ by_ahb_of H4 sysclk hpre }
{
    divider::by_ahb(Family::H4, sysclk, hpre)
}

// HCLK, the V3F control core's clock, after FPRE.
pub fn hclk_from_ahb(ahb: Frequency, fpre: u8) -> Frequency
    ensures { result ≡ over ahb (fpre_divisor fpre) }
{
    divider::by_fpre(ahb, fpre)
}

// A bus: PCLK after PPRE, and its timers' clock, which is PCLK.
pub fn pclk_from_hclk(hclk: Frequency, ppre: u8) -> Result<(Frequency, u32), Refusal>
    ensures { says result ≡ pclk_of hclk ppre }
{
    let pclk = divider::by_apb(hclk, ppre)?;
    Ok((pclk, pclk.hz))
}

// The PLL's multiplier at a position, doubled.
pub fn pll_mul_x2(position: u8) -> Result<u32, Refusal>
    ensures { says result ≡ doubled_of position }
{
    if 32 <= position {
        return Err(Refusal::CodeNotAllowed);
    }
    Ok(PLL_MUL_X2[usize::from(position)])
}

// The clocks of a SYSCLK and one configuration: the AHB clock, which is the V5F core's, and the six clocks.
pub fn clocks_from_sysclk(sysclk: Frequency, prescale: Prescale) -> Result<(u32, Clocks), Refusal>
    ensures { says result ≡ prescaled_of sysclk prescale }
{
    let ahb = ahb_from_sysclk(sysclk, prescale.hpre)?;
    let hclk = hclk_from_ahb(ahb, prescale.fpre);
    let clocks = tree::below_hclk(Family::H4, sysclk, hclk, prescale.ppre1, prescale.ppre2)?;
    Ok((ahb.hz, clocks))
}
