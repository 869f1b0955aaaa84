// Serial divisors: from a bus's clock and a wanted rate, BRR and the error that is left.
// An `as` here makes a number narrower that is proved to fit; `try_from` would have an error that never comes.
#![tactic(auto, unfolding(crate::specs::Serial::nearest_of, crate::specs::Serial::divisor_of, crate::specs::Serial::port_of))]

ghost use Rattle.std.specs.Prelude.{◌≡◌, ◌<◌};
ghost use Rattle.answer.specs.Said.{says};
ghost use Rattle.serial.specs.Serial.{nearest_of, error_of, divisor_of, port_of};

use answer::Refusal;
use tree::Clocks;

// The smallest BRR.
const BRR_MIN: u64 = 16;
// The largest BRR.
const BRR_MAX: u64 = 65535;

// The nearest whole number to pclk / rate, halves up. Doubled, so that no half is lost.
fn nearest(pclk: u32, rate: u32) -> u64
    requires { 0 < rate }
    ensures { result ≡ nearest_of pclk rate }
{
    let double = 2 * u64::from(rate);
    (2 * u64::from(pclk) + u64::from(rate)) / double
}

// PCLK - rate x BRR. The nearest BRR leaves half of the rate at most, so every error has room.
fn error(pclk: u32, rate: u32, brr: u16) -> i32
    requires { (0 < rate) × (brr ≡ nearest_of pclk rate) }
    ensures { result ≡ error_of pclk rate brr }
{
    let reached = i64::from(rate) * i64::from(brr);
    (i64::from(pclk) - reached) as i32
}

// BRR for a wanted rate, and the error PCLK - rate x BRR. Refused by 33: the rate is 0. Then by 34: BRR is outside 16..65,535.
pub fn divisor(pclk: u32, rate: u32) -> Result<(u16, i32), Refusal>
    ensures { says result ≡ divisor_of pclk rate }
{
    if rate == 0 {
        return Err(Refusal::RateZero);
    }
    let n = nearest(pclk, rate);
    if (n < BRR_MIN) | (BRR_MAX < n) {
        return Err(Refusal::BrrOutOfRange);
    }
    let brr = n as u16;
    Ok((brr, error(pclk, rate, brr)))
}

// The same for a port: bus 1 runs at PCLK1, bus 2 at PCLK2. The bus is a number, since another is refused by 28 (`port_of`); then as `divisor`.
pub fn port_divisor(clocks: Clocks, bus: u8, rate: u32) -> Result<(u16, i32), Refusal>
    ensures { says result ≡ port_of clocks bus rate }
{
    match bus {
        1 => divisor(clocks.pclk1, rate),
        2 => divisor(clocks.pclk2, rate),
        _ => Err(Refusal::CodeNotAllowed),
    }
}
