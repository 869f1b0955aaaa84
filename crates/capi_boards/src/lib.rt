// A tray of boards for C.
#![tactic(auto)]

ghost use Rattle.std.specs.Prelude.{◌*◌};
ghost use Rattle.boards.specs.Tray.{boards_in, tray_of};
ghost use Rattle.capi_give.specs.Given.{Given};

// Checks the profiles of a tray, back to back. Gives 32 bytes for each: what its check says. A refused board has its number there; the call is not refused.
// Refused by 32: fewer than 32 bytes lent for each whole ten of profiles. Then by 29: their length is not a multiple of ten.
#[unsafe(no_mangle)]
pub extern "C" fn wontabeli_tray(profiles: &[u8], out: &mut [u8]) -> u8
    ensures { Given (32 * boards_in profiles.now) (tray_of profiles.now) out.old out.new result }
{
    answer::number(boards::tray(profiles, out))
}
