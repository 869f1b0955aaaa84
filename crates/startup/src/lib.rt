// The stepwise startup of the V4x7 clocks. A host starts it with a configuration and the fields as they are, then calls `step` with a reading
// each time, writes the fields that come back to the chip, and goes on until the report says that the startup is running, failed or refused.
#![tactic(auto)]

mod steps;

ghost use Rattle.std.specs.Prelude.{◌≡◌, cond, ltb, ℕ, ◌+◌, ◌≤◌, ◌<◌};
ghost use Rattle.answer.specs.Said.{says};
ghost use Rattle.startup.specs.Steps.{next_of, work_of};
ghost use Rattle.startup.specs.Call.{number_of, named_step, seen_of, going, handed_back, moved, ended, met, waiting, missed, misread, compared, came_to, waited_of, event_of, seeing, repeated_of, step_of, start_of, mask_of, waits_owed_of, call_bound_of, key_of};

use answer::Refusal;
use image::{Fields, Seen};
use steps::{Work, listed, perform};
use tree::Clocks;
use v4x7::Config;

// Of a wait's readings, the one that fails it.
const READINGS: u32 = 1_000_000;

// The most readings that a startup uses: those of eight waits, and step 21's.
const MOST_READINGS: u32 = 8_000_001;

// What the host read from the chip: the ready bits and SWS, and SCKMOD. Of these two the low two bits count.
#[derive(Clone, Copy, Debug, PartialEq, Eq)]
pub struct Reading {
    pub seen: Seen,
    pub sckmod: u8,
}

// What came of a call: the step, and how many readings are used by now. A refusal is its number here, and no `Refusal`: `Startup::step` takes and gives back any
// report, also one that no call made (`step_of`).
#[derive(Clone, Copy, Debug, PartialEq, Eq)]
pub enum Report {
    // The step is worked: written, or its reading found right. At 19 the host writes the keys.
    Worked { step: u8, used: u32 },
    // The reading did not meet the step's wait.
    Waiting { step: u8, used: u32 },
    // Over: the clocks run as the check promised.
    Running { step: u8, used: u32 },
    // Over: the step's wait (21) or its flash reading (22) failed.
    Failed { number: u8, step: u8, used: u32 },
    // Over, the clocks differing (23); or handed back as it was (28).
    Refused(u8),
}

// The refusal number of a report, or 0.
pub fn number(report: Report) -> u8
    ensures { result ≡ number_of report }
{
    match report {
        Report::Worked { .. } | Report::Waiting { .. } | Report::Running { .. } => 0,
        Report::Failed { number, .. } | Report::Refused(number) => number,
    }
}

// The step that a report names, or 0.
pub fn named_step(report: Report) -> u8
    ensures { result ≡ named_step report }
{
    match report {
        Report::Worked { step, .. }
        | Report::Waiting { step, .. }
        | Report::Running { step, .. }
        | Report::Failed { step, .. } => step,
        Report::Refused(_) => 0,
    }
}

#[derive(Clone, Copy, Debug, PartialEq, Eq)]
pub struct Startup {
    pub config: Config,
    pub fields: Fields,
    // The step whose turn it is.
    pub step: u8,
    // The unmet readings of its wait.
    pub unmet: u32,
    // All readings used.
    pub used: u32,
    // The last report, where the startup is over.
    pub over: Option<Report>,
}

#[derive(Clone, Copy, Debug, PartialEq, Eq)]
pub struct Stepped {
    pub startup: Startup,
    pub report: Report,
}

// A key that the host writes at step 19, and to which register.
#[derive(Clone, Copy, Debug, PartialEq, Eq)]
pub enum FlashKey {
    Keyr(u32),
    ModeKeyr(u32),
}

// The keys of step 19, in their order: places 0 to 3.
#[tactic(auto, using(crate::proofs::Cases::no_key), unfolding(crate::specs::Call::key_of))]
pub fn flash_key(place: u8) -> Option<FlashKey>
    ensures { result ≡ key_of place }
{
    match place {
        0 => Some(FlashKey::Keyr(0x4567_0123)),
        1 => Some(FlashKey::Keyr(0xcdef_89ab)),
        2 => Some(FlashKey::ModeKeyr(0x4567_0123)),
        3 => Some(FlashKey::ModeKeyr(0xcdef_89ab)),
        _ => None,
    }
}

// What the startup turns on, a bit each: HSE at step 9, ETH PLL at 11, USBHS PLL at 14, main PLL at 17.
#[tactic(auto, using(crate::proofs::Cases::bit_le, crate::proofs::Cases::mask_is))]
fn mask(c: Config) -> u32
    ensures { result ≡ mask_of c }
{
    8 * u32::from(listed(c, 9))
        + 4 * u32::from(listed(c, 11))
        + 2 * u32::from(listed(c, 14))
        + u32::from(listed(c, 17))
}

// How many waits a configuration's startup has: four, and one for each bit of the mask. 28 for a code without a name.
#[tactic(auto, using(crate::specs::Owed::ones_turned_on, crate::specs::Owed::four_at_most), unfolding(crate::specs::Call::waits_owed_of))]
pub fn waits_owed(c: Config) -> Result<u32, Refusal>
    ensures { says result ≡ waits_owed_of c }
{
    if !v4x7::named_codes(c) {
        return Err(Refusal::CodeNotAllowed);
    }
    Ok(4 + mask(c).count_ones())
}

// The startup is over within so many calls. 28 for a code without a name.
#[tactic(auto, using(crate::specs::Owed::owed, crate::specs::Owed::four_at_most), unfolding(crate::specs::Call::call_bound_of))]
pub fn call_bound(c: Config) -> Result<u32, Refusal>
    ensures { says result ≡ call_bound_of c }
{
    let waits = waits_owed(c)?;
    Ok(READINGS * waits + 20)
}

// A reading's ready bits and SWS.
fn seen_of(reading: Reading) -> Seen
    ensures { result ≡ seen_of reading }
{
    let sws = reading.seen.sws % 4;
    Seen {
        sws,
        ..reading.seen
    }
}

// A startup that no starting leads to is handed back as it was.
fn handed_back(s: Startup) -> Stepped
    ensures { result ≡ handed_back s }
{
    Stepped {
        startup: s,
        report: Report::Refused(Refusal::CodeNotAllowed.number()),
    }
}

// The next step whose part is there.
#[tactic(auto, using(crate::proofs::Shape::next_here, crate::proofs::Shape::next_later, crate::proofs::Shape::next_end))]
fn next(config: Config, step: u8) -> u8
    ensures { result ≡ next_of config step }
{
    // Counted by the step before: the one behind 255 is no step. A `find` would say in its closure's contract what the loop's invariant says.
    for before in step..28 {
        let n = before + 1;
        if listed(config, n) {
            return n;
        }
    }
    step.max(28)
}

// The step is worked: on to the one after it, with these fields and so many readings used.
fn onward(after: u8, s: Startup, fields: Fields, used: u32) -> Stepped
    ensures { result ≡ moved after s fields used }
{
    let step = s.step;
    Stepped {
        startup: Startup {
            fields,
            step: after,
            unmet: 0,
            used,
            over: None,
            ..s
        },
        report: Report::Worked { step, used },
    }
}

// The startup is over, with these fields and counts, by this report. A struct of these would be built for each call and taken apart here.
fn over(s: Startup, fields: Fields, unmet: u32, used: u32, last: Report) -> Stepped
    ensures { result ≡ ended s fields unmet used last }
{
    Stepped {
        startup: Startup {
            fields,
            unmet,
            used,
            over: Some(last),
            ..s
        },
        report: last,
    }
}

// A reading did not meet the step's wait, which fails at the last of its readings. That few readings are used is asked here and of the three below
// (`waited`, `read_back`, `work`). It is no invariant of `Startup`: `Startup::step` takes any, and refuses more by 28; a struct of its own for these four would be
// made in one place and taken apart in four.
fn unmet(s: Startup, fields: Fields) -> Stepped
    requires { (s.unmet < 1000000) × (s.used ≤ 8000001) }
    ensures { (after : ℕ) → result ≡ came_to after s fields (cond (ltb (s.unmet + 1) 1000000) waiting missed) }
{
    let step = s.step;
    let unmet = s.unmet + 1;
    let used = s.used + 1;
    if unmet < READINGS {
        return Stepped {
            startup: Startup {
                fields,
                unmet,
                used,
                over: None,
                ..s
            },
            report: Report::Waiting { step, used },
        };
    }
    let last = Report::Failed {
        number: Refusal::WaitFailed.number(),
        step,
        used,
    };
    over(s, fields, unmet, used, last)
}

fn waited(after: u8, s: Startup, fields: Fields, met: bool) -> Stepped
    requires { s.used ≤ 8000001 }
    ensures { result ≡ came_to after s fields (waited_of 1000000 s.unmet met) }
{
    if READINGS <= s.unmet {
        return handed_back(s);
    }
    if met {
        return onward(after, s, fields, s.used + 1);
    }
    unmet(s, fields)
}

fn read_back(after: u8, s: Startup, fields: Fields, right: bool) -> Stepped
    requires { s.used ≤ 8000001 }
    ensures { result ≡ came_to after s fields (cond right met misread) }
{
    let used = s.used + 1;
    if right {
        return onward(after, s, fields, used);
    }
    let last = Report::Failed {
        number: Refusal::FlashModeDiffers.number(),
        step: s.step,
        used,
    };
    over(s, fields, s.unmet, used, last)
}

fn compare(s: Startup, same: bool) -> Stepped
    ensures { result ≡ came_to (next_of s.config s.step) s s.fields (compared same) }
{
    let last = if same {
        Report::Running {
            step: s.step,
            used: s.used,
        }
    } else {
        Report::Refused(Refusal::ClocksDiffer.number())
    };
    over(s, s.fields, s.unmet, s.used, last)
}

// One step's work done or one reading used, the check having promised these clocks.
fn work(s: Startup, promised: Clocks, reading: Reading) -> Stepped
    requires { s.used ≤ 8000001 }
    ensures { result ≡ came_to (next_of s.config s.step) s (seeing s reading) (event_of 1000000 s reading (work_of s.config promised s.step s.fields (seen_of reading))) }
{
    let seen = seen_of(reading);
    let fields = Fields { seen, ..s.fields };
    let after = next(s.config, s.step);
    match perform(s.config, promised, s.step, s.fields, seen) {
        Some(Work::Wrote(written)) => onward(after, s, written, s.used),
        Some(Work::Waits(met)) => waited(after, s, fields, met),
        Some(Work::Reads(mode)) => read_back(after, s, fields, reading.sckmod % 4 == mode),
        Some(Work::Compares(same)) => compare(s, same),
        None => handed_back(s),
    }
}

// A startup that is over, asked again, its fields being in width: it repeats the last report.
fn repeated(s: Startup, last: Report) -> Stepped
    ensures { result ≡ repeated_of s last }
{
    if !v4x7::named_codes(s.config) {
        return handed_back(s);
    }
    Stepped {
        startup: s,
        report: last,
    }
}

// A startup of which no step is worked.
fn begun(config: Config, fields: Fields) -> Startup
    ensures { result ≡ going config fields 1 0 0 }
{
    Startup {
        config,
        fields,
        step: 1,
        unmet: 0,
        used: 0,
        over: None,
    }
}

impl Startup {
    // Starting: 28 for a code, then the check's refusals; it works no step.
    #[tactic(auto, unfolding(crate::specs::Call::start_of))]
    pub fn start(config: Config, earlier: Fields) -> Result<Startup, Refusal>
        ensures { says result ≡ start_of config earlier }
    {
        if !image::in_width(earlier) {
            return Err(Refusal::CodeNotAllowed);
        }
        config.clocks()?;
        Ok(begun(config, earlier))
    }

    // One call: one step's work done or one reading used.
    #[tactic(auto, using(crate::proofs::Cases::step_over, crate::proofs::Cases::step_going), unfolding(crate::specs::Call::step_of, crate::specs::Call::call_of))]
    pub fn step(self, reading: Reading) -> Stepped
        ensures { result ≡ step_of self reading }
    {
        if !image::in_width(self.fields) {
            return handed_back(self);
        }
        if let Some(last) = self.over {
            return repeated(self, last);
        }
        // The check refuses a code without a name.
        let Ok(accepted) = self.config.clocks() else {
            return handed_back(self);
        };
        if !listed(self.config, self.step) | (MOST_READINGS < self.used) {
            return handed_back(self);
        }
        work(self, accepted.clocks, reading)
    }
}
