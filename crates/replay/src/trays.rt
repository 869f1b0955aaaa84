// A board, and a tray of boards.
ghost use Rattle.std.specs.Prelude.{◌≤◌};

use crate::query::Query;
use crate::reply::{Reply, written};

// The longest lent output of a tray, and the most bytes of profiles.
const LENT: usize = 448;

const PROFILES: usize = 120;

pub fn board(mut q: Query<'_>) -> Reply {
    let mut a = Reply::accepted();
    a.bytes(&boards::board(q.lent(32)));
    a
}

// A length of two bytes; one above the limit counts as the limit.
fn length(q: &mut Query<'_>) -> usize
    ensures { result ≤ 448 }
{
    let n = u16::from_be_bytes([q.byte(), q.byte()]);
    usize::from(n).min(LENT)
}

// The answer of a tray, and its lent output from the query's place on.
pub fn tray(mut q: Query<'_>) -> Reply {
    let n = usize::from(q.byte()).min(PROFILES);
    let room = q.bytes(PROFILES);
    let profiles = &room[..n.min(room.len())];
    let m = length(&mut q);
    let mut lent = [q.byte(); LENT];
    let outcome = boards::tray(profiles, &mut lent[..m]);
    let place = length(&mut q);
    written(outcome, lent[..m].get(place..).unwrap_or(&[]))
}
