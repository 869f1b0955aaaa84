// A startup with its ticks, which the host keeps in 72 lent bytes.
ghost use Rattle.std.specs.Prelude.{◌≡◌, ◌+◌, ◌≤◌, length};
ghost use Rattle.answer.specs.Said.{says};
ghost use Rattle.capi_startup.specs.Kept.{phase_of, last_tag, tag_of, report_tag, number_at, standing_of, startup_in, ticks_in, counts_bytes, ticks_bytes, noted_bytes};

use crate::{
    PHASE_GOING, PHASE_RUNNING, PLACE_IMAGE, PLACE_NAMED, PLACE_NUMBER, PLACE_PHASE, PLACE_REPORT,
    PLACE_STEP, PLACE_UNMET, PLACE_USED, REPORT_FAILED, REPORT_RUNNING, REPORT_WAITING,
    REPORT_WORKED,
};
use answer::Refusal;
use image::Fields;
use startup::{Report, Startup, named_step, number};
use ticks::{Ticks, Waits};
use v4x7::Config;

// The numbers of the refusals that a startup can be over by, as constants, which a pattern takes: a place's byte is a
// number, since C hosts keep it.
const WAIT_FAILED: u8 = Refusal::WaitFailed as u8;

const FLASH_MODE_DIFFERS: u8 = Refusal::FlashModeDiffers as u8;

const CLOCKS_DIFFER: u8 = Refusal::ClocksDiffer as u8;

const CODE_NOT_ALLOWED: u8 = Refusal::CodeNotAllowed as u8;

// A phase by its byte: 0 going, 1 running, 21 and 22 how it failed. No call leaves any other: 23 is over by 23, and the rest is as good as 28.
fn phase(tag: u8, step: u8, used: u32) -> Option<Report>
    ensures { result ≡ phase_of tag step used }
{
    match tag {
        PHASE_GOING => None,
        PHASE_RUNNING => Some(Report::Running { step, used }),
        WAIT_FAILED | FLASH_MODE_DIFFERS => Some(Report::Failed {
            number: tag,
            step,
            used,
        }),
        CLOCKS_DIFFER => Some(Report::Refused(CLOCKS_DIFFER)),
        _ => Some(Report::Refused(CODE_NOT_ALLOWED)),
    }
}

// The byte of an end. Worked and waiting end nothing.
fn last_tag(last: Report) -> u8
    ensures { result ≡ last_tag last }
{
    match last {
        Report::Worked { .. } | Report::Waiting { .. } => CODE_NOT_ALLOWED,
        Report::Running { .. } => PHASE_RUNNING,
        Report::Failed { number, .. } | Report::Refused(number) => number,
    }
}

// A phase's byte.
fn tag(over: Option<Report>) -> u8
    ensures { result ≡ tag_of over }
{
    over.map_or(PHASE_GOING, last_tag)
}

// What came of a call, in one byte.
fn report_tag(report: Report) -> u8
    ensures { result ≡ report_tag report }
{
    match report {
        Report::Worked { .. } => REPORT_WORKED,
        Report::Waiting { .. } => REPORT_WAITING,
        Report::Running { .. } => REPORT_RUNNING,
        Report::Failed { .. } | Report::Refused(_) => REPORT_FAILED,
    }
}

// The number that four bytes of a place spell, by where they stand in it (`number_at`).
fn number_at(place: &[u8], at: usize) -> u32
    requires { at + 4 ≤ length place.now }
    ensures { result ≡ number_at place.now at }
{
    layout::number(place[at], place[at + 1], place[at + 2], place[at + 3])
}

// The startup of a place whose profile and image are read.
fn standing(config: Config, fields: Fields, place: &[u8]) -> Startup
    requires { 32 ≤ length place.now }
    ensures { result ≡ standing_of config fields place.now }
{
    let step = place[PLACE_STEP];
    let used = number_at(place, PLACE_USED);
    Startup {
        config,
        fields,
        step,
        unmet: number_at(place, PLACE_UNMET),
        used,
        over: phase(place[PLACE_PHASE], step, used),
    }
}

// The startup that a place holds.
pub fn kept(place: &[u8]) -> Result<Startup, Refusal>
    requires { 32 ≤ length place.now }
    ensures { says result ≡ startup_in place.now }
{
    let config = profile::read_profile(&place[..PLACE_IMAGE])?;
    let fields = image::read_image(&place[PLACE_IMAGE..PLACE_STEP])?;
    Ok(standing(config, fields, place))
}

// The ticks of a place: its last 40 bytes. They are a slice of the lent place here and in the two below; an array would come by a `try_from` whose error never comes.
fn ticks_in(part: &[u8]) -> Ticks
    requires { length part.now ≡ 40 }
    ensures { result ≡ ticks_in part.now }
{
    Ticks {
        first: number_at(part, 0),
        waits: Waits {
            at2: number_at(part, 4),
            at4: number_at(part, 8),
            at7: number_at(part, 12),
            at10: number_at(part, 16),
            at12: number_at(part, 20),
            at15: number_at(part, 24),
            at18: number_at(part, 28),
            at27: number_at(part, 32),
        },
    }
}

// Lays the ticks over a place's last 40 bytes: the first one, the eight waits', the longest.
#[tactic(auto, using(crate::proofs::Laying::numbers_whole), unfolding(crate::specs::Kept::ticks_bytes))]
pub fn lay_ticks(t: Ticks, part: &mut [u8])
    requires { length part.old ≡ 40 }
    ensures { part.new ≡ ticks_bytes t }
{
    let w = t.waits;
    let numbers = [
        t.first,
        w.at2,
        w.at4,
        w.at7,
        w.at10,
        w.at12,
        w.at15,
        w.at18,
        w.at27,
        w.longest(),
    ];
    layout::put_numbers(part, 0, &numbers);
}

// The ticks of a place after a call: all of them where it met a wait, and otherwise the first one alone, since the others are as they were.
#[tactic(auto, using(crate::proofs::Laying::all_noted, crate::proofs::Laying::first_noted))]
pub fn note(unmet: u32, tick: u32, report: Report, part: &mut [u8])
    requires { length part.old ≡ 40 }
    ensures { part.new ≡ noted_bytes part.old unmet tick report }
{
    let t = ticks_in(part).after(unmet, tick, report);
    if ticks::meets_wait(report) {
        lay_ticks(t, part);
        return;
    }
    layout::put_numbers(part, 0, &[t.first]);
}

// Lays over a place what stands between image and ticks: step, counts, phase, and what came of the last call.
#[tactic(auto, using(crate::proofs::Laying::counts_laid), unfolding(crate::specs::Kept::counts_bytes))]
pub fn lay_counts(startup: Startup, report: Report, part: &mut [u8])
    requires { length part.old ≡ 14 }
    ensures { part.new ≡ counts_bytes startup report }
{
    let numbers = [startup.unmet, startup.used];
    part[0] = startup.step;
    layout::put_numbers(part, PLACE_UNMET - PLACE_STEP, &numbers);
    part[PLACE_PHASE - PLACE_STEP] = tag(startup.over);
    part[PLACE_REPORT - PLACE_STEP] = report_tag(report);
    part[PLACE_NUMBER - PLACE_STEP] = number(report);
    part[PLACE_NAMED - PLACE_STEP] = named_step(report);
    part[13] = 0;
}
