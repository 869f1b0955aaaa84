// A fraction in lowest terms: in the clock record of CH32V4x7, the ADC's source over its divisor.
#![tactic(auto)]

ghost use Rattle.std.specs.Prelude.{◌≡◌};
ghost use Rattle.fraction.specs.Fraction.{gcd_of, lowest_of};

// A source over a divisor. 0 over 0 says that there is none (`lowest_of`).
#[derive(Clone, Copy, Debug, PartialEq, Eq)]
pub struct Fraction {
    pub source: u32,
    pub divisor: u32,
}

// The greatest common divisor, by repeated remainder: the second number falls at each call.
fn gcd(a: u32, b: u32) -> u32
    ensures { result ≡ gcd_of a b }
{
    if b == 0 { a } else { gcd(b, a % b) }
}

// A source over a divisor in lowest terms; 0 over 0 where the divisor is 0.
pub fn lowest(source: u32, divisor: u32) -> Fraction
    ensures { result ≡ lowest_of source divisor }
{
    if divisor == 0 {
        return Fraction {
            source: 0,
            divisor: 0,
        };
    }
    let common = gcd(source, divisor);
    Fraction {
        source: source / common,
        divisor: divisor / common,
    }
}
