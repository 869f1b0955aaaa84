// A tray of boards. What each call does is said in `capi_boards`.
ghost use Rattle.std.specs.Prelude.{◌*◌};
ghost use Rattle.boards.specs.Tray.{boards_in, tray_of};
ghost use Rattle.capi_give.specs.Given.{Given};

#[unsafe(no_mangle)]
pub extern "C" fn wontabeli_tray(profiles: &[u8], out: &mut [u8]) -> u8
    ensures { Given (32 * boards_in profiles.now) (tray_of profiles.now) out.old out.new result }
{
    capi_boards::wontabeli_tray(profiles, out)
}
