// A startup kept in one place and advanced where it lies, with the same answers as handing it back by value.
#![tactic(auto)]

ghost use Rattle.std.specs.Prelude.{◌≡◌};
ghost use Rattle.answer.specs.Said.{refusal_number};
ghost use Rattle.startup.specs.Call.{start_of};
ghost use Rattle.place.specs.Place.{leaves_as_it_was, stepped_in, started_in};

use answer::Refusal;
use image::Fields;
use startup::{Reading, Report, Startup};
use ticks::Ticked;
use v4x7::Config;

// Does a call with this report leave the place as it was? 23 and 28 do; a call that ends with 21 or 22 leaves the ended startup.
// A match: a report that came new would have to be thought of here.
pub fn leaves_as_it_was(report: Report) -> bool
    ensures { result ≡ leaves_as_it_was report }
{
    match report {
        Report::Worked { .. }
        | Report::Waiting { .. }
        | Report::Running { .. }
        | Report::Failed { .. } => false,
        Report::Refused(_) => true,
    }
}

// One call with its tick, where the startup lies: by value, and stored back.
#[tactic(auto, unfolding(crate::specs::Place::stepped_in))]
pub fn step(place: &mut Ticked, reading: Reading, tick: u32) -> Report
    ensures { (place.new ≡ (stepped_in place.old reading tick).place) × (result ≡ (stepped_in place.old reading tick).report) }
{
    let out = Ticked::step(*place, reading, tick);
    if !leaves_as_it_was(out.report) {
        *place = out.ticked;
    }
    out.report
}

// Starting in the place; a refusal leaves the place as it was.
pub fn start(place: &mut Ticked, config: Config, earlier: Fields) -> Result<(), Refusal>
    ensures { (place.new ≡ (started_in place.old (start_of config earlier)).place) × (refusal_number result ≡ (started_in place.old (start_of config earlier)).number) }
{
    *place = Ticked::begin(Startup::start(config, earlier)?);
    Ok(())
}
