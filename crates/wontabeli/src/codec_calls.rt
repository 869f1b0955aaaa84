// CH32V4x7: profiles and images taken apart and made. What each call does is said in `capi_codec`.
ghost use Rattle.capi_give.specs.Given.{Given};
ghost use Rattle.capi_codec.specs.Codec.{profile_fields, profile_from, image_fields, image_from};

#[unsafe(no_mangle)]
pub extern "C" fn wontabeli_read_profile(from: &[u8], out: &mut [u8]) -> u8
    ensures { Given 24 (profile_fields from.now) out.old out.new result }
{
    capi_codec::wontabeli_read_profile(from, out)
}

#[unsafe(no_mangle)]
pub extern "C" fn wontabeli_write_profile(fields: &[u8], out: &mut [u8]) -> u8
    ensures { Given 10 (profile_from fields.now) out.old out.new result }
{
    capi_codec::wontabeli_write_profile(fields, out)
}

#[unsafe(no_mangle)]
pub extern "C" fn wontabeli_read_image(from: &[u8], out: &mut [u8]) -> u8
    ensures { Given 34 (image_fields from.now) out.old out.new result }
{
    capi_codec::wontabeli_read_image(from, out)
}

#[unsafe(no_mangle)]
pub extern "C" fn wontabeli_write_image(fields: &[u8], out: &mut [u8]) -> u8
    ensures { Given 8 (image_from fields.now) out.old out.new result }
{
    capi_codec::wontabeli_write_image(fields, out)
}
