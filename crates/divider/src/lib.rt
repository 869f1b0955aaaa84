// The dividers of the four families: a divisor by its code, and a frequency divided by it.
#![tactic(auto, using(crate::specs::Laws::ahb_given, crate::specs::Laws::apb_given, crate::specs::Laws::fpre_between, crate::specs::Laws::by_apb_quotient, crate::proofs::Shifts::ahb_rule, crate::proofs::Shifts::apb_rule), unfolding(crate::specs::Divide::ahb_of, crate::specs::Divide::apb_of, crate::specs::Divide::by_ahb_of, crate::specs::Divide::apb_quotient_of))]

ghost use Rattle.std.specs.Prelude.{◌≡◌, ◌+◌, ◌<◌, ◌≤◌};
ghost use Rattle.answer.specs.Said.{says};
ghost use Rattle.divider.specs.Divide.{ahb_divisor, apb_divisor, fpre_divisor, ahb_of, apb_of, by_ahb_of, by_apb_of, apb_quotient_of};
ghost use Rattle.divider.specs.Frequency.{whole, over};
ghost use Rattle.divider.specs.Laws.{ShiftFor};

use answer::Refusal;

#[derive(Clone, Copy, Debug, PartialEq, Eq)]
pub enum Family {
    V4x7,
    V1,
    V30x,
    H4,
}

// A frequency, in whole Hz.
#[derive(Clone, Copy, Debug, PartialEq, Eq)]
pub struct Frequency {
    pub hz: u32,
}

// A frequency of so many Hz.
pub fn hertz(hz: u32) -> Frequency
    ensures { result ≡ whole hz }
{
    Frequency { hz }
}

// A row for each family and a column for each code (document 01). The rows are equal, and each family keeps its own: a change of one is that family's alone.
const AHB_SHIFTS: [[u8; 16]; 4] = [
    [0, 0, 0, 0, 0, 0, 0, 0, 1, 2, 3, 4, 6, 7, 8, 9], // V4x7
    [0, 0, 0, 0, 0, 0, 0, 0, 1, 2, 3, 4, 6, 7, 8, 9], // V1
    [0, 0, 0, 0, 0, 0, 0, 0, 1, 2, 3, 4, 6, 7, 8, 9], // V30x
    [0, 0, 0, 0, 0, 0, 0, 0, 1, 2, 3, 4, 6, 7, 8, 9], // H4
];

const FPRE_DIVISORS: [u32; 4] = [1, 2, 4, 4];

fn ahb_shift(family: Family, code: usize) -> u8
    requires { code < 16 }
    ensures { ShiftFor (ahb_divisor family code) result }
{
    // The row by the family's discriminant.
    AHB_SHIFTS[family as usize][code]
}

fn apb_shift(code: u8) -> u8
    requires { code < 8 }
    ensures { ShiftFor (apb_divisor code) result }
{
    code.saturating_sub(3)
}

// The AHB divisor of a code of four bits.
pub fn ahb(family: Family, code: u8) -> Result<u32, Refusal>
    ensures { says result ≡ ahb_of family code }
{
    if 16 <= code {
        return Err(Refusal::CodeNotAllowed);
    }
    Ok(1u32 << ahb_shift(family, usize::from(code)))
}

// The APB divisor of a code of three bits, in every family.
pub fn apb(code: u8) -> Result<u32, Refusal>
    ensures { says result ≡ apb_of code }
{
    if 8 <= code {
        return Err(Refusal::CodeNotAllowed);
    }
    Ok(1u32 << apb_shift(code))
}

// The divisor of H4's FPRE: the low two bits of the code alone.
#[tactic(auto, unfolding(crate::specs::Divide::fpre_divisor))]
fn fpre(code: u8) -> u32
    ensures { result ≡ fpre_divisor code }
{
    FPRE_DIVISORS[usize::from(code % 4)]
}

// A frequency by a divisor of this crate, none of which is 0.
#[tactic(auto, unfolding(crate::specs::Frequency::over))]
fn divided(from: Frequency, divisor: u32) -> Frequency
    requires { 1 ≤ divisor }
    ensures { result ≡ over from divisor }
{
    Frequency {
        hz: from.hz / divisor,
    }
}

// A frequency divided by the AHB divisor of a code.
pub fn by_ahb(family: Family, from: Frequency, code: u8) -> Result<Frequency, Refusal>
    ensures { says result ≡ by_ahb_of family from code }
{
    let divisor = ahb(family, code)?;
    Ok(divided(from, divisor))
}

// The APB divisor of a code, and a frequency divided by it.
pub fn apb_quotient(from: Frequency, code: u8) -> Result<(u32, Frequency), Refusal>
    ensures { says result ≡ apb_quotient_of from code }
{
    let divisor = apb(code)?;
    Ok((divisor, divided(from, divisor)))
}

// A frequency divided by the APB divisor of a code.
pub fn by_apb(from: Frequency, code: u8) -> Result<Frequency, Refusal>
    ensures { says result ≡ by_apb_of from code }
{
    let (_, quotient) = apb_quotient(from, code)?;
    Ok(quotient)
}

// A frequency divided by the divisor of H4's FPRE.
pub fn by_fpre(from: Frequency, code: u8) -> Frequency
    ensures { result ≡ over from (fpre_divisor code) }
{
    divided(from, fpre(code))
}

// A frequency divided by n + 1: registers hold a plain divisor less one.
pub fn by_one_more(from: Frequency, n: u8) -> Frequency
    ensures { result ≡ over from (n + 1) }
{
    divided(from, u32::from(n) + 1)
}
