// Answers binary query records, one after another, for every public call. oracle/README.md has the records to the byte.
// Its structs are not compared or printed, so they derive Clone and Copy alone.
#![tactic(auto)]

mod brr;
mod codec;
mod families;
mod power;
mod query;
mod reply;
mod rules;
mod script;
mod ticked;
mod trays;
mod v4;

use answer::Refusal;
use query::Query;
use reply::Reply;
use std::io::Read;

// A match, and no table of functions: a kind is a number of the record, and the handlers are of two types.
fn answered(kind: u8, q: Query<'_>) -> Result<Reply, Refusal> {
    match kind {
        0x01 => Ok(v4::check(q)),
        0x02 => v4::decode(q),
        0x03 => v4::adc(q),
        0x04 => v4::rng(q),
        0x05 => power::startup(q),
        0x06 => Ok(power::call(q)),
        0x07 => codec::read_profile(q),
        0x08 => Ok(codec::write_profile(q)),
        0x09 => codec::read_image(q),
        0x0a => Ok(codec::write_image(q)),
        0x0b => v4::waits_owed(q),
        0x0c => v4::call_bound(q),
        0x0d => rules::main_pll(q),
        0x0e => rules::syspll_input(q),
        0x0f => rules::adc_from_usbhs(q),
        0x28 => rules::pll_output(q),
        0x40 => brr::divisor(q),
        0x41 => brr::port(q),
        0x42 => Ok(trays::board(q)),
        0x43 => Ok(trays::tray(q)),
        0x44 => ticked::startup(q),
        _ => families::answer(kind, q),
    }
}

// The answer, which begins with the query's kind.
fn answer(query: &[u8; 128]) -> [u8; 64] {
    let kind = query[0];
    let reply = match answered(kind, Query::of(&query[1..])) {
        Ok(reply) => reply,
        Err(refusal) => Reply::numbered(refusal.number()),
    };
    let mut bytes = reply.bytes;
    bytes[0] = kind;
    bytes
}

// One record; false where the input ends. A read that fails counts as the end.
fn step<R: Read>(rt: &impl Print, reader: &mut R) -> bool {
    let mut query = [0u8; 128];
    if reader.read_exact(&mut query).is_err() {
        return false;
    }
    let reply = answer(&query);
    rt.write_all(&reply).is_ok()
}

// A proved loop has to end: so it has a number of turns that no run uses up.
fn main(rt: HostRuntime) {
    let mut reader = rt.reader();
    for _ in 0..1_000_000_000_000u64 {
        if !step(&rt, &mut reader) {
            break;
        }
    }
}
