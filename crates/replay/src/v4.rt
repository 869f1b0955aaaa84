// The V4x7 check, decoder and queries, and what a host asks before it starts.
use crate::query::Query;
use crate::reply::Reply;
use answer::Refusal;

pub fn check(mut q: Query<'_>) -> Reply {
    let checked = q.config().clocks();
    // Taken by `let .. else`, as document 01 has the accepted clocks taken.
    let Ok(accepted) = checked else {
        return Reply::numbered(answer::number(checked));
    };
    let mut a = Reply::of_clocks(accepted.clocks);
    a.word(accepted.adc);
    a
}

pub fn decode(mut q: Query<'_>) -> Result<Reply, Refusal> {
    let fields = q.fields();
    let clocks = decoder::decode(fields, q.number())?;
    Ok(Reply::of_clocks(clocks))
}

// Whether its PLL is ready, and the frequency.
fn queried(found: Option<u32>) -> Reply {
    let mut a = Reply::accepted();
    a.flag(found.is_some());
    a.word(found.unwrap_or(0));
    a
}

// This and those below differ in the function called: one for each two would take it as a closure, and be no shorter.
pub fn adc(mut q: Query<'_>) -> Result<Reply, Refusal> {
    let fields = q.fields();
    let found = decoder::adc_frequency(fields, q.word())?;
    Ok(queried(found))
}

pub fn rng(mut q: Query<'_>) -> Result<Reply, Refusal> {
    let fields = q.fields();
    let found = decoder::rng_source_frequency(fields, q.word())?;
    Ok(queried(found))
}

pub fn waits_owed(mut q: Query<'_>) -> Result<Reply, Refusal> {
    let waits = startup::waits_owed(q.config())?;
    Ok(Reply::of_word(waits))
}

pub fn call_bound(mut q: Query<'_>) -> Result<Reply, Refusal> {
    let calls = startup::call_bound(q.config())?;
    Ok(Reply::of_word(calls))
}
