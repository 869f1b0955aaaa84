// Profiles and images for C and Rust, their fields one a byte: a host takes a record apart, or makes one. The fields stand in document 01's order,
// the filling last; HSE's frequency is four bytes, the most significant first.
#![tactic(auto, unfolding(crate::specs::Codec::profile_fields, crate::specs::Codec::profile_from, crate::specs::Codec::image_fields, crate::specs::Codec::image_from))]

ghost use Rattle.std.specs.Prelude.{◌≡◌, ◌≤◌, ◌*◌, Some, None, cond};
ghost use Rattle.answer.specs.Said.{says};
ghost use Rattle.layout.specs.Bits.{narrowed};
ghost use Rattle.layout.specs.Layout.{total, fitting, packed};
ghost use Rattle.capi_give.specs.Given.{Given};
ghost use Rattle.capi_codec.specs.Codec.{accepted_fields, profile_fields, profile_from, image_fields, image_from};

use answer::Refusal;

// A profile, in bytes.
pub const PROFILE_SIZE: usize = 10;
// The fields of a profile, in bytes, one a field; HSE's frequency is four, and the filling the last.
pub const PROFILE_FIELDS: usize = 24;
// An image, in bytes.
pub const IMAGE_SIZE: usize = 8;
// The fields of an image, in bytes, one a field; the filling is the last.
pub const IMAGE_FIELDS: usize = 34;

// The fields of a record that its reader accepts, one a byte. No width is above eight.
#[tactic(auto, using(crate::proofs::Making::all_fields))]
fn fields<T: Copy, const N: usize>(
    read: Result<T, Refusal>,
    widths: &[u8; N],
    from: &[u8],
) -> Result<[u8; N], Refusal>
    requires few { N ≤ 256 }
    requires narrow { narrowed widths.now ≡ widths.now }
    ensures { says result ≡ accepted_fields (says read) widths.now from.now }
{
    read?;
    let mut xs = [0; N];
    layout::load(widths, from, &mut xs);
    Ok(xs)
}

// The bytes that fields make. None: they don't fit their widths, which are N bytes in all, and none above eight bits.
fn stored<const N: usize>(widths: &[u8], xs: &[u8]) -> Option<[u8; N]>
    requires whole { total widths.now ≡ 8 * N }
    requires narrow { narrowed widths.now ≡ widths.now }
    ensures { result ≡ cond (fitting widths.now xs.now) (Some (packed N widths.now xs.now)) None }
{
    let mut made = [0; N];
    if layout::store(widths, xs, &mut made) {
        Some(made)
    } else {
        None
    }
}

// A profile that its reader accepts, of its fields.
fn profile_from(xs: &[u8]) -> Result<[u8; PROFILE_SIZE], Refusal>
    ensures { says result ≡ profile_from xs.now }
{
    let made = stored(&profile::WIDTHS, xs).ok_or(Refusal::ProfileCode)?;
    match profile::read_profile(&made) {
        Err(_) => Err(Refusal::ProfileCode),
        Ok(_) => Ok(made),
    }
}

// An image that its reader accepts, of its fields. One function for this and `profile_from` would take the reader as a closure, and be no shorter.
fn image_from(xs: &[u8]) -> Result<[u8; IMAGE_SIZE], Refusal>
    ensures { says result ≡ image_from xs.now }
{
    let made = stored(&image::WIDTHS, xs).ok_or(Refusal::CodeNotAllowed)?;
    match image::read_image(&made) {
        Err(_) => Err(Refusal::CodeNotAllowed),
        Ok(_) => Ok(made),
    }
}

// The fields of a profile. Refused by 32, 29, 30.
#[unsafe(no_mangle)]
pub extern "C" fn wontabeli_read_profile(from: &[u8], out: &mut [u8]) -> u8
    ensures { Given 24 (profile_fields from.now) out.old out.new result }
{
    let read = profile::read_profile(from);
    capi_give::give_record(
        fields::<_, PROFILE_FIELDS>(read, &profile::WIDTHS, from),
        out,
    )
}

// The profile of fields. Refused by 32; by 30: not 24 fields, a code too wide, or what the reader would refuse.
#[unsafe(no_mangle)]
pub extern "C" fn wontabeli_write_profile(fields: &[u8], out: &mut [u8]) -> u8
    ensures { Given 10 (profile_from fields.now) out.old out.new result }
{
    capi_give::give_record(profile_from(fields), out)
}

// The fields of an image. Refused by 32, 31.
#[unsafe(no_mangle)]
pub extern "C" fn wontabeli_read_image(from: &[u8], out: &mut [u8]) -> u8
    ensures { Given 34 (image_fields from.now) out.old out.new result }
{
    let read = image::read_image(from);
    capi_give::give_record(fields::<_, IMAGE_FIELDS>(read, &image::WIDTHS, from), out)
}

// The image of fields. Refused by 32; by 28: not 34 fields, a code too wide, or the filling not zero.
#[unsafe(no_mangle)]
pub extern "C" fn wontabeli_write_image(fields: &[u8], out: &mut [u8]) -> u8
    ensures { Given 8 (image_from fields.now) out.old out.new result }
{
    capi_give::give_record(image_from(fields), out)
}
