// The script of a startup's readings: segments, each of which gives its reading so many times.
use crate::query::Query;
use startup::Reading;

// The bytes of a segment.
pub const SEGMENT: usize = 5;

#[derive(Clone, Copy)]
struct Segment {
    count: u32,
    reading: Reading,
}

fn next_segment(q: &mut Query<'_>) -> Segment {
    Segment {
        count: u32::from_be_bytes([0, q.byte(), q.byte(), q.byte()]),
        reading: q.reading(),
    }
}

// The segment in use, how many of its readings were used, and the segments behind it.
#[derive(Clone, Copy)]
pub struct Script<'a> {
    now: Segment,
    used: u32,
    behind: Query<'a>,
}

impl<'a> Script<'a> {
    pub fn new(segments: &'a [u8]) -> Script<'a> {
        let mut behind = Query::of(segments);
        let now = next_segment(&mut behind);
        Script {
            now,
            used: 0,
            behind,
        }
    }

    // The next reading: of the next segment where this one is used up and another follows.
    pub fn next(&mut self) -> Reading {
        let mut behind = self.behind;
        let next = next_segment(&mut behind);
        if self.now.count <= self.used && 0 < next.count {
            *self = Script {
                now: next,
                used: 0,
                behind,
            };
        }
        self.now.reading
    }

    // The reading was used. One that a call ignores stays the next one.
    pub fn count(&mut self) {
        self.used = self.used.saturating_add(1);
    }
}
