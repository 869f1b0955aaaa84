// CH32V1 and CH32L1. What each call does is said in `capi_v1`.
ghost use Rattle.capi_give.specs.Given.{Given, six_words, seven_words};
ghost use Rattle.capi_pll32.specs.Bytes.{seven_of};
ghost use Rattle.capi_v1.specs.Calls.{field_bytes, check_read, decode_read, init_read};

#[unsafe(no_mangle)]
pub extern "C" fn wontabeli_v1_check(part: u8, config: &[u8], out: &mut [u32]) -> u8
    ensures { Given 7 (seven_words (seven_of (check_read part config.now))) out.old out.new result }
{
    capi_v1::wontabeli_v1_check(part, config, out)
}

#[unsafe(no_mangle)]
pub extern "C" fn wontabeli_v1_decode(part: u8, fields: &[u8], hse: u32, out: &mut [u32]) -> u8
    ensures { Given 6 (six_words (decode_read part fields.now hse)) out.old out.new result }
{
    capi_v1::wontabeli_v1_decode(part, fields, hse, out)
}

#[unsafe(no_mangle)]
pub extern "C" fn wontabeli_v1_init_fields(
    part: u8,
    config: &[u8],
    earlier: &[u8],
    out: &mut [u8],
) -> u8
    ensures { Given 8 (field_bytes (init_read part config.now earlier.now)) out.old out.new result }
{
    capi_v1::wontabeli_v1_init_fields(part, config, earlier, out)
}
