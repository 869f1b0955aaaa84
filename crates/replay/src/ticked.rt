// Whole startups over a script of readings, with a tick in each call.
use crate::power;
use crate::query::Query;
use crate::reply::Reply;
use crate::script::{SEGMENT, Script};
use answer::Refusal;
use startup::{Report, Startup};
use ticks::{Ticked, Waits};

// A run so far: the startup and its ticks, the last report, and the next call's tick. Like the run of `power`, but with a tick in each call: one type for both would
// carry ticks that the other has not.
#[derive(Clone, Copy)]
struct Run {
    ticked: Ticked,
    report: Report,
    tick: u32,
}

impl Run {
    // One call with the script's next reading.
    fn advance(&mut self, script: &mut Script<'_>, by: u32) {
        let before = self.ticked.startup.used;
        let stepped = self.ticked.step(script.next(), self.tick);
        self.ticked = stepped.ticked;
        self.report = stepped.report;
        self.tick = self.tick.wrapping_add(by);
        if before < power::used(self.report, self.ticked.startup) {
            script.count();
        }
    }

    fn told(self) -> Reply {
        let startup = self.ticked.startup;
        let mut a = power::standing(startup, self.report);
        put_ticks(&mut a, self.ticked.ticks.waits);
        a.image(startup.fields);
        a
    }
}

// The ticks of the eight waits in the order of their steps, and the longest.
fn put_ticks(a: &mut Reply, waits: Waits) {
    a.word(waits.at2);
    a.word(waits.at4);
    a.word(waits.at7);
    a.word(waits.at10);
    a.word(waits.at12);
    a.word(waits.at15);
    a.word(waits.at18);
    a.word(waits.at27);
    a.word(waits.longest());
}

// As many calls as the limit says, after the end too.
pub fn startup(mut q: Query<'_>) -> Result<Reply, Refusal> {
    let config = q.config();
    let begun = Startup::start(config, q.fields())?;
    let limit = q.word();
    let mut run = Run {
        ticked: Ticked::begin(begun),
        report: power::NOTHING,
        tick: q.word(),
    };
    let by = q.word();
    let mut script = Script::new(q.bytes(11 * SEGMENT));
    for _ in 0..limit {
        run.advance(&mut script, by);
    }
    Ok(run.told())
}
