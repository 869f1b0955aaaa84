// The serial divisor. What each call does is said in `capi_serial`.
ghost use Rattle.serial.specs.Serial.{divisor_of};
ghost use Rattle.capi_serial.specs.Calls.{GivenSerial};

#[unsafe(no_mangle)]
pub extern "C" fn wontabeli_serial_divisor(
    pclk: u32,
    rate: u32,
    brr: &mut u16,
    error: &mut i32,
) -> u8
    ensures { GivenSerial (divisor_of pclk rate) brr.old brr.new error.old error.new result }
{
    capi_serial::wontabeli_serial_divisor(pclk, rate, brr, error)
}
