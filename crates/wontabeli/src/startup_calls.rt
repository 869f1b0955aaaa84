// CH32V4x7: a startup in its place. What each call does is said in `capi_startup`.
ghost use Rattle.capi_give.specs.Given.{Given};
ghost use Rattle.capi_startup.specs.Calls.{start_bytes, step_bytes, Leaves};

#[unsafe(no_mangle)]
pub extern "C" fn wontabeli_start(p: &[u8], i: &[u8], place: &mut [u8]) -> u8
    ensures { Given 72 (start_bytes p.now i.now) place.old place.new result }
{
    capi_startup::wontabeli_start(p, i, place)
}

#[unsafe(no_mangle)]
pub extern "C" fn wontabeli_step(place: &mut [u8], w: u16, tick: u32) -> u8
    ensures { Leaves 72 (step_bytes place.old w tick) place.old place.new result }
{
    capi_startup::wontabeli_step(place, w, tick)
}
