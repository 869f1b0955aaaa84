// The clock tree below SYSCLK, and the product of a PLL.
#![tactic(auto, using(divider::specs::Laws::quotient_twice), unfolding(crate::specs::Tree::timer_clock, crate::specs::Tree::bus_of, crate::specs::Tree::below_of, crate::specs::Tree::clocks_of))]

ghost use Rattle.std.specs.Prelude.{◌≡◌};
ghost use Rattle.answer.specs.Said.{says};
ghost use Rattle.tree.specs.Tree.{hse_frequency_of, doubles, bus_of, below_of, clocks_of, product_of, wide_says};

use answer::Refusal;
use divider::{Family, Frequency};

// The six clocks, in Hz.
#[derive(Clone, Copy, Debug, PartialEq, Eq)]
pub struct Clocks {
    pub sysclk: u32,
    pub hclk: u32,
    pub pclk1: u32,
    pub pclk2: u32,
    pub pclk1_tim: u32,
    pub pclk2_tim: u32,
}

// The crystal or the clock fed in from outside (`bypass`), with its frequency in Hz.
#[derive(Clone, Copy, Debug, PartialEq, Eq)]
pub struct Hse {
    pub bypass: bool,
    pub freq: u32,
}

// The codes of the three prescalers below SYSCLK.
#[derive(Clone, Copy, Debug, PartialEq, Eq)]
pub struct Prescalers {
    pub ahb: u8,
    pub apb1: u8,
    pub apb2: u8,
}

// What a PLL makes, in Hz.
#[derive(Clone, Copy, Debug, PartialEq, Eq)]
pub struct Wide {
    pub hz: u64,
}

// HSE's frequency or none, which is all that the rules and the decoders take.
pub fn hse_frequency(hse: Option<Hse>) -> Option<u32>
    ensures { result ≡ hse_frequency_of hse }
{
    Some(hse?.freq)
}

// Whether the family's timers run at twice PCLK where the bus divides.
fn doubling(family: Family) -> bool
    ensures { result ≡ doubles family }
{
    family != Family::H4
}

// A bus that divides HCLK by the divisor of a code: its clock, and its timers'. These go by the divisor and not by comparing the frequencies, which may both be 0.
fn apb_bus(family: Family, hclk: Frequency, code: u8) -> Result<(Frequency, u32), Refusal>
    ensures { says result ≡ bus_of family hclk code }
{
    let (divisor, pclk) = divider::apb_quotient(hclk, code)?;
    if divisor == 1 {
        return Ok((pclk, pclk.hz));
    }
    let tim = if doubling(family) {
        2 * pclk.hz
    } else {
        pclk.hz
    };
    Ok((pclk, tim))
}

// The clocks of a SYSCLK and an HCLK: the two buses and their timers. It takes two codes and no `Prescalers`, since AHB's isn't looked at.
pub fn below_hclk(
    family: Family,
    sysclk: Frequency,
    hclk: Frequency,
    apb1: u8,
    apb2: u8,
) -> Result<Clocks, Refusal>
    ensures { says result ≡ below_of family sysclk hclk apb1 apb2 }
{
    let (pclk1, pclk1_tim) = apb_bus(family, hclk, apb1)?;
    let (pclk2, pclk2_tim) = apb_bus(family, hclk, apb2)?;
    Ok(Clocks {
        sysclk: sysclk.hz,
        hclk: hclk.hz,
        pclk1: pclk1.hz,
        pclk2: pclk2.hz,
        pclk1_tim,
        pclk2_tim,
    })
}

// The clocks of a SYSCLK, by the codes of its prescalers.
pub fn bus_clocks(family: Family, sysclk: Frequency, codes: Prescalers) -> Result<Clocks, Refusal>
    ensures { says result ≡ clocks_of family sysclk codes.ahb codes.apb1 codes.apb2 }
{
    let hclk = divider::by_ahb(family, sysclk, codes.ahb)?;
    below_hclk(family, sysclk, hclk, codes.apb1, codes.apb2)
}

// What a PLL makes of its input, by its multiplier doubled: the product first, then the half.
pub fn product(input: Frequency, doubled: u8) -> Wide
    ensures { wide_says result ≡ product_of input doubled }
{
    let twice = u64::from(input.hz) * u64::from(doubled);
    Wide { hz: twice / 2 }
}
