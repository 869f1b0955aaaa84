// The serial divisor for C.
#![tactic(auto)]

ghost use Rattle.serial.specs.Serial.{divisor_of};
ghost use Rattle.capi_serial.specs.Calls.{GivenSerial};

// BRR for a wanted rate at a bus's clock, and its error: PCLK - rate x BRR. Refused by 33: the rate is 0. Then by 34: BRR is outside 16..65,535.
#[unsafe(no_mangle)]
pub extern "C" fn wontabeli_serial_divisor(
    pclk: u32,
    rate: u32,
    brr: &mut u16,
    error: &mut i32,
) -> u8
    ensures { GivenSerial (divisor_of pclk rate) brr.old brr.new error.old error.new result }
{
    match serial::divisor(pclk, rate) {
        Err(refusal) => refusal.number(),
        Ok((nearest, left)) => {
            *brr = nearest;
            *error = left;
            0
        }
    }
}
