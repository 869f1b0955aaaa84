// The V4x7 startup for C and Rust: a startup with its ticks, which the host keeps in 72 lent bytes.
#![tactic(auto, unfolding(crate::specs::Kept::phase_of, crate::specs::Kept::standing_of, crate::specs::Kept::startup_in, crate::specs::Kept::ticks_in, crate::specs::Calls::reading_of, crate::specs::Calls::start_read, crate::specs::Calls::start_bytes, crate::specs::Calls::step_bytes))]

mod kept;

ghost use Rattle.std.specs.Prelude.{◌≡◌, ◌≤◌, length};
ghost use Rattle.answer.specs.Said.{says};
ghost use Rattle.capi_give.specs.Given.{Given};
ghost use Rattle.capi_startup.specs.Calls.{reading_of, start_read, start_bytes, call_bytes, step_bytes, Leaves};

use answer::Refusal;
use image::Seen;
use kept::{kept, lay_counts, lay_ticks, note};
use startup::{Reading, Report, Startup, Stepped, number};
use ticks::Ticked;

// A place's bytes. Its first ten are the profile.
pub const PLACE_SIZE: usize = 72;
// The image, eight bytes: after a call the host writes its fields to the chip, but for the ready bits and SWS.
pub const PLACE_IMAGE: usize = 10;
// The step whose turn it is.
pub const PLACE_STEP: usize = 18;
// The unmet readings of its wait, four bytes.
pub const PLACE_UNMET: usize = 19;
// All readings used, four bytes.
pub const PLACE_USED: usize = 23;
// Whether the startup is over: PHASE_GOING, PHASE_RUNNING, or the refusal that ended it (21 or 22).
pub const PLACE_PHASE: usize = 27;
// What the last call that changed the place reports: a REPORT_ number.
pub const PLACE_REPORT: usize = 28;
// That call's refusal: 0, 21 or 22.
pub const PLACE_NUMBER: usize = 29;
// The step that it names; 0 before the first call.
pub const PLACE_NAMED: usize = 30;
// The tick of the first reading of the wait whose turn it is, four bytes; it counts where PLACE_UNMET is not 0.
pub const PLACE_FIRST_TICK: usize = 32;
// The ticks of the eight waits (steps 2, 4, 7, 10, 12, 15, 18 and 27), four bytes each.
pub const PLACE_TICKS: usize = 36;
// The longest of them, four bytes.
pub const PLACE_LONGEST: usize = 68;

// The phases and reports are numbers: they are bytes that C hosts read.

// In byte PLACE_PHASE: not over, call again.
pub const PHASE_GOING: u8 = 0;
// In byte PLACE_PHASE: over, and the clocks run as the check promised.
pub const PHASE_RUNNING: u8 = 1;

// In byte PLACE_REPORT: the step is worked; at 19 the host writes the keys.
pub const REPORT_WORKED: u8 = 0;
// In byte PLACE_REPORT: the reading did not meet the step's wait.
pub const REPORT_WAITING: u8 = 1;
// In byte PLACE_REPORT: over, and the clocks run as the check promised.
pub const REPORT_RUNNING: u8 = 2;
// In byte PLACE_REPORT: over, by the refusal in byte PLACE_NUMBER.
pub const REPORT_FAILED: u8 = 3;

// HSI is ready. A reading is the sum of these.
pub const HSIRDY: u16 = 1;
// HSE is ready.
pub const HSERDY: u16 = 2;
// The main PLL is ready.
pub const PLLRDY: u16 = 4;
// The USBHS PLL is ready.
pub const USBHS_PLLRDY: u16 = 8;
// The ETH PLL is ready.
pub const ETH_PLLRDY: u16 = 16;
// SWS, two bits: its value times this.
pub const SWS: u16 = 32;
// SCKMOD, two bits: its value times this.
pub const SCKMOD: u16 = 128;

// Two bits fit a byte, as is proved; `try_from` would have an error that never comes.
fn reading(w: u16) -> Reading
    ensures { result ≡ reading_of w }
{
    Reading {
        seen: Seen {
            hsirdy: w / HSIRDY % 2 == 1,
            hserdy: w / HSERDY % 2 == 1,
            pllrdy: w / PLLRDY % 2 == 1,
            usbhs_pllrdy: w / USBHS_PLLRDY % 2 == 1,
            eth_pllrdy: w / ETH_PLLRDY % 2 == 1,
            sws: (w / SWS % 4) as u8,
        },
        sckmod: (w / SCKMOD % 4) as u8,
    }
}

fn begin(p: &[u8], i: &[u8]) -> Result<Startup, Refusal>
    ensures { says result ≡ start_read p.now i.now }
{
    let config = profile::read_profile(p)?;
    let fields = image::read_image(i)?;
    Startup::start(config, fields)
}

// Copies N bytes. How many is known when this is compiled, so that the archive needs no `memmove` from outside.
fn keep<const N: usize>(from: &[u8], part: &mut [u8])
    requires from { length from.now ≡ N }
    requires part { length part.old ≡ N }
    ensures { part.new ≡ from.now }
{
    part[..N].copy_from_slice(&from[..N]);
}

// Starts a startup with a profile of ten bytes and the image of the registers as they are, eight bytes, and keeps it in the place's first 72 bytes.
// Refused by 32, 29, 30, 31, then by the check's 1 to 16; the place then stays as it was.
#[tactic(auto, using(crate::proofs::Starting::profile_size, crate::proofs::Starting::image_size), unfolding(crate::specs::Calls::start_bytes))]
#[unsafe(no_mangle)]
pub extern "C" fn wontabeli_start(p: &[u8], i: &[u8], place: &mut [u8]) -> u8
    ensures { Given 72 (start_bytes p.now i.now) place.old place.new result }
{
    if place.len() < PLACE_SIZE {
        return Refusal::OutputTooShort.number();
    }
    match begin(p, i) {
        Err(refusal) => refusal.number(),
        Ok(startup) => {
            let ticked = Ticked::begin(startup);
            let report = Report::Worked { step: 0, used: 0 };
            keep::<10>(p, &mut place[..PLACE_IMAGE]);
            keep::<8>(i, &mut place[PLACE_IMAGE..PLACE_STEP]);
            lay_counts(startup, report, &mut place[PLACE_STEP..PLACE_FIRST_TICK]);
            lay_ticks(ticked.ticks, &mut place[PLACE_FIRST_TICK..PLACE_SIZE]);
            0
        }
    }
}

// A call of the startup that a place holds. Where the startup is over, or the call is refused but for 21 and 22, the place stays as it was. The profile stays
// in any case.
fn call(startup: Startup, w: u16, tick: u32, place: &mut [u8]) -> u8
    requires { 72 ≤ length place.old }
    ensures { Leaves 72 (call_bytes place.old startup w tick) place.old place.new result }
{
    let Stepped {
        startup: after,
        report,
    } = startup.step(reading(w));
    if startup.over.is_some() | place::leaves_as_it_was(report) {
        return number(report);
    }
    // It refuses no startup that is worked: its fields are in width.
    if let Err(refusal) = image::write_image(after.fields, &mut place[PLACE_IMAGE..PLACE_STEP]) {
        return refusal.number();
    }
    lay_counts(after, report, &mut place[PLACE_STEP..PLACE_FIRST_TICK]);
    note(
        startup.unmet,
        tick,
        report,
        &mut place[PLACE_FIRST_TICK..PLACE_SIZE],
    );
    number(report)
}

// One call of the startup that the place holds, with a reading and a tick: one step's work done or one reading used. 0: the place then says how it went; its
// image is what the host writes to the chip. 21 or 22: the startup is over, as the place then says. Refused by 32; by 30, 31 or 28 where no starting leads to
// these bytes; by 23: the place then stays as it was.
#[unsafe(no_mangle)]
pub extern "C" fn wontabeli_step(place: &mut [u8], w: u16, tick: u32) -> u8
    ensures { Leaves 72 (step_bytes place.old w tick) place.old place.new result }
{
    if place.len() < PLACE_SIZE {
        return Refusal::OutputTooShort.number();
    }
    match kept(place) {
        Err(refusal) => refusal.number(),
        Ok(startup) => call(startup, w, tick, place),
    }
}
