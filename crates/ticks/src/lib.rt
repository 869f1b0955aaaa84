// A startup with the ticks of its waits. Each call hands in a free-running 32-bit tick with its reading. For each wait that is met, the ticks from its
// first reading to the met one are kept, modulo 2^32. Ticks change no other answer.
#![tactic(auto)]

ghost use Rattle.std.specs.Prelude.{◌≡◌};
ghost use Rattle.ticks.specs.Ticks.{spent_of, longest_of, has_wait, noted_of, met_of, meets_wait, after_of, begun_with, ticked_of};

use startup::{Reading, Report, Startup};

// The ticks of each wait, by its step: 0 before it is met, and for good where it is skipped or fails. Fields and no array: `noted_of` and a host name each by its
// step, and the eight steps don't count on.
#[derive(Clone, Copy, Debug, Default, PartialEq, Eq)]
pub struct Waits {
    pub at2: u32,
    pub at4: u32,
    pub at7: u32,
    pub at10: u32,
    pub at12: u32,
    pub at15: u32,
    pub at18: u32,
    pub at27: u32,
}

#[derive(Clone, Copy, Debug, Default, PartialEq, Eq)]
pub struct Ticks {
    // The tick of the first reading of the wait whose turn it is, once one was unmet; before, any number (`after_of`).
    pub first: u32,
    pub waits: Waits,
}

#[derive(Clone, Copy, Debug, PartialEq, Eq)]
pub struct Ticked {
    pub startup: Startup,
    pub ticks: Ticks,
}

#[derive(Clone, Copy, Debug, PartialEq, Eq)]
pub struct TickedStep {
    pub ticked: Ticked,
    pub report: Report,
}

// The ticks from one to another, modulo 2^32.
fn spent(first: u32, tick: u32) -> u32
    ensures { result ≡ spent_of first tick }
{
    tick.wrapping_sub(first)
}

// Does the step wait? A function for the name that its definition has.
fn has_wait(step: u8) -> bool
    ensures { result ≡ has_wait step }
{
    matches!(step, 2 | 4 | 7 | 10 | 12 | 15 | 18 | 27)
}

// The step's wait took so many ticks. A step without a wait changes nothing.
#[tactic(auto, unfolding(crate::specs::Ticks::noted_of))]
fn noted(w: Waits, step: u8, ticks: u32) -> Waits
    ensures { result ≡ noted_of w step ticks }
{
    match step {
        2 => Waits { at2: ticks, ..w },
        4 => Waits { at4: ticks, ..w },
        7 => Waits { at7: ticks, ..w },
        10 => Waits { at10: ticks, ..w },
        12 => Waits { at12: ticks, ..w },
        15 => Waits { at15: ticks, ..w },
        18 => Waits { at18: ticks, ..w },
        27 => Waits { at27: ticks, ..w },
        _ => w,
    }
}

// A step is worked at this tick; its wait's first reading was at `first`.
#[tactic(auto, unfolding(crate::specs::Ticks::met_of))]
fn met(t: Ticks, step: u8, first: u32, tick: u32) -> Ticks
    ensures { result ≡ met_of t step first tick }
{
    let waits = noted(t.waits, step, spent(first, tick));
    Ticks { waits, ..t }
}

// Has this report met a wait? Of the steps that it can name, eight have one. A match: a report that came new would have to be thought of here.
pub fn meets_wait(report: Report) -> bool
    ensures { result ≡ meets_wait report }
{
    match report {
        Report::Worked { step, .. } => has_wait(step),
        Report::Waiting { .. }
        | Report::Running { .. }
        | Report::Failed { .. }
        | Report::Refused(_) => false,
    }
}

impl Waits {
    // The longest of the eight: 0 before any is met.
    #[tactic(auto, unfolding(crate::specs::Ticks::longest_of))]
    pub fn longest(self) -> u32
        ensures { result ≡ longest_of self }
    {
        let early = self.at2.max(self.at4).max(self.at7).max(self.at10);
        let late = self.at12.max(self.at15).max(self.at18).max(self.at27);
        early.max(late)
    }
}

impl Ticks {
    // After a call at this tick, before which the wait had so many unmet readings: without any, this call's reading is its first.
    #[tactic(auto, unfolding(crate::specs::Ticks::after_of))]
    pub fn after(self, unmet: u32, tick: u32, report: Report) -> Ticks
        ensures { result ≡ after_of self unmet tick report }
    {
        let first = if unmet == 0 { tick } else { self.first };
        match report {
            Report::Worked { step, .. } => met(self, step, first, tick),
            Report::Waiting { .. } => Ticks { first, ..self },
            Report::Running { .. } | Report::Failed { .. } | Report::Refused(_) => self,
        }
    }
}

impl Ticked {
    // A startup that was just started: no wait is met.
    pub fn begin(startup: Startup) -> Ticked
        ensures { result ≡ begun_with startup }
    {
        Ticked {
            startup,
            ticks: Ticks::default(),
        }
    }

    // One call: the startup's own, and the ticks beside it. Of a startup that is over before the call the ticks stay.
    #[tactic(auto, unfolding(crate::specs::Ticks::ticked_of))]
    pub fn step(self, reading: Reading, tick: u32) -> TickedStep
        ensures { result ≡ ticked_of self reading tick }
    {
        let earlier = self.startup;
        let out = earlier.step(reading);
        let ticks = match earlier.over {
            Some(_) => self.ticks,
            None => self.ticks.after(earlier.unmet, tick, out.report),
        };
        TickedStep {
            ticked: Ticked {
                startup: out.startup,
                ticks,
            },
            report: out.report,
        }
    }
}
