// Whole startups over a script of readings, and one call of a startup as it stands.
use crate::query::Query;
use crate::reply::Reply;
use crate::script::{SEGMENT, Script};
use answer::Refusal;
use startup::{FlashKey, Report, Startup};

// A run so far: the startup, the last report, the calls, and how many of them named step 19.
#[derive(Clone, Copy)]
struct Run {
    startup: Startup,
    report: Report,
    calls: u32,
    keyed: u32,
}

// What stands for the last report before there is one. No Option: the answer has these zeros for it.
pub const NOTHING: Report = Report::Worked { step: 0, used: 0 };

// The readings that a report counts; those of the startup where it counts none.
pub fn used(report: Report, startup: Startup) -> u32 {
    match report {
        Report::Worked { used, .. }
        | Report::Waiting { used, .. }
        | Report::Running { used, .. }
        | Report::Failed { used, .. } => used,
        Report::Refused(_) => startup.used,
    }
}

// 0 not over, 1 over and running, 2 over by a refusal.
fn over(startup: Startup) -> u8 {
    match startup.over {
        None | Some(Report::Worked { .. } | Report::Waiting { .. }) => 0,
        Some(Report::Running { .. }) => 1,
        Some(Report::Failed { .. } | Report::Refused(_)) => 2,
    }
}

// How a startup stands after a report.
pub fn standing(startup: Startup, report: Report) -> Reply {
    let mut a = Reply::numbered(startup::number(report));
    a.byte(startup::named_step(report));
    a.byte(over(startup));
    a.word(used(report, startup));
    a
}

fn key(place: u8) -> u32 {
    match startup::flash_key(place) {
        Some(FlashKey::Keyr(key) | FlashKey::ModeKeyr(key)) => key,
        None => 0,
    }
}

// The keys of step 19, where a call named it, and how many did.
fn put_keys(a: &mut Reply, keyed: u32) {
    for place in 0..4 {
        a.word(if keyed == 0 { 0 } else { key(place) });
    }
    // The lowest byte of it.
    a.byte(keyed.to_be_bytes()[3]);
}

impl Run {
    // One call with the script's next reading; a reading that the call ignored stays the next one.
    fn advance(&mut self, script: &mut Script<'_>) {
        let before = self.startup.used;
        let stepped = self.startup.step(script.next());
        self.startup = stepped.startup;
        self.report = stepped.report;
        if before < used(self.report, self.startup) {
            script.count();
        }
        if startup::named_step(self.report) == 19 {
            self.keyed = self.keyed.saturating_add(1);
        }
    }

    // Until it is over, or as many calls are made as the limit says.
    fn play(&mut self, script: &mut Script<'_>, limit: u32) {
        for calls in 0..limit {
            if self.startup.over.is_some() {
                break;
            }
            self.advance(script);
            self.calls = calls + 1;
        }
    }

    // After the end, one more call, which isn't counted and repeats the answer.
    fn repeat(&mut self, script: &mut Script<'_>) {
        if self.startup.over.is_some() {
            let stepped = self.startup.step(script.next());
            self.startup = stepped.startup;
            self.report = stepped.report;
        }
    }

    // The fields decoded with the configuration's HSE, where the startup runs.
    fn put_decoded(self, a: &mut Reply) {
        if let Some(Report::Running { .. }) = self.startup.over {
            let hse = tree::hse_frequency(self.startup.config.hse);
            if let Ok(clocks) = decoder::decode(self.startup.fields, hse) {
                a.clocks(clocks);
                return;
            }
        }
        a.bytes(&[0; 24]);
    }

    fn told(self) -> Reply {
        let mut a = standing(self.startup, self.report);
        a.word(self.calls);
        a.image(self.startup.fields);
        self.put_decoded(&mut a);
        put_keys(&mut a, self.keyed);
        // The low three bytes of the unmet readings.
        a.bytes(&self.startup.unmet.to_be_bytes()[1..]);
        a
    }
}

pub fn startup(mut q: Query<'_>) -> Result<Reply, Refusal> {
    let config = q.config();
    let mut run = Run {
        startup: Startup::start(config, q.fields())?,
        report: NOTHING,
        calls: 0,
        keyed: 0,
    };
    let limit = q.word();
    let mut script = Script::new(q.bytes(13 * SEGMENT));
    run.play(&mut script, limit);
    run.repeat(&mut script);
    Ok(run.told())
}

// None: not over. Else the last answer: its number (0: running), the step that it names and the readings that it counts.
fn last_report(q: &mut Query<'_>) -> Option<Report> {
    let over = q.flag();
    let number = q.byte();
    let step = q.byte();
    let used = q.word();
    let last = match number {
        0 => Report::Running { step, used },
        23 => Report::Refused(Refusal::ClocksDiffer.number()),
        _ => Report::Failed { number, step, used },
    };
    over.then_some(last)
}

// One call of a startup as it stands in the query.
pub fn call(mut q: Query<'_>) -> Reply {
    let config = q.config();
    let fields = q.fields();
    let step = q.byte();
    let unmet = q.word();
    let used = q.word();
    let reading = q.reading();
    let handed_in = Startup {
        config,
        fields,
        step,
        unmet,
        used,
        over: last_report(&mut q),
    };
    let stepped = handed_in.step(reading);
    let run = Run {
        startup: stepped.startup,
        report: stepped.report,
        calls: 1,
        keyed: u32::from(startup::named_step(stepped.report) == 19),
    };
    let mut a = run.told();
    if startup::number(run.report) == Refusal::CodeNotAllowed.number() {
        a.bytes[60] = run.startup.step;
    }
    a
}
