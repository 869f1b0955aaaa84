// CH32V30x. What each call does is said in `capi_v30x`.
ghost use Rattle.capi_give.specs.Given.{Given, six_words, seven_words};
ghost use Rattle.capi_pll32.specs.Bytes.{seven_of};
ghost use Rattle.capi_v30x.specs.Calls.{field_bytes, check_read, decode_read, init_read};

#[unsafe(no_mangle)]
pub extern "C" fn wontabeli_v30x_check(config: &[u8], out: &mut [u32]) -> u8
    ensures { Given 7 (seven_words (seven_of (check_read config.now))) out.old out.new result }
{
    capi_v30x::wontabeli_v30x_check(config, out)
}

#[unsafe(no_mangle)]
pub extern "C" fn wontabeli_v30x_decode(fields: &[u8], hse: u32, out: &mut [u32]) -> u8
    ensures { Given 6 (six_words (decode_read fields.now hse)) out.old out.new result }
{
    capi_v30x::wontabeli_v30x_decode(fields, hse, out)
}

#[unsafe(no_mangle)]
pub extern "C" fn wontabeli_v30x_init_fields(config: &[u8], earlier: &[u8], out: &mut [u8]) -> u8
    ensures { Given 9 (field_bytes (init_read config.now earlier.now)) out.old out.new result }
{
    capi_v30x::wontabeli_v30x_init_fields(config, earlier, out)
}
