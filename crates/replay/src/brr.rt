// Serial divisors, of a PCLK and of a port.
use crate::query::Query;
use crate::reply::Reply;
use answer::Refusal;

// BRR, and its error in two's complement.
fn set(brr: u16, error: i32) -> Reply {
    let mut a = Reply::accepted();
    a.bytes(&brr.to_be_bytes());
    a.bytes(&error.to_be_bytes());
    a
}

pub fn divisor(mut q: Query<'_>) -> Result<Reply, Refusal> {
    let pclk = q.word();
    let (brr, error) = serial::divisor(pclk, q.word())?;
    Ok(set(brr, error))
}

pub fn port(mut q: Query<'_>) -> Result<Reply, Refusal> {
    let clocks = q.clocks();
    let bus = q.byte();
    let (brr, error) = serial::port_divisor(clocks, bus, q.word())?;
    Ok(set(brr, error))
}
