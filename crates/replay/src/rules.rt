// The calls below the check and the decoder: the main PLL, SYSPLL's input and the ADC's ratio of V4x7, and the PLL of V1, L1 and V30x.
use crate::query::Query;
use crate::reply::Reply;
use answer::Refusal;
use pll32::{Part, Setting};

pub fn main_pll(mut q: Query<'_>) -> Result<Reply, Refusal> {
    let from_hse = q.flag();
    let mul = q.byte();
    let output = v4x7_rules::main_pll(q.number(), from_hse, mul)?;
    Ok(Reply::of_word(output.hz))
}

pub fn syspll_input(mut q: Query<'_>) -> Result<Reply, Refusal> {
    let source = q.byte();
    let main = q.number().map(divider::hertz);
    let input = v4x7_rules::syspll_input(source, main)?;
    Ok(Reply::of_word(input.hz))
}

pub fn adc_from_usbhs(mut q: Query<'_>) -> Result<Reply, Refusal> {
    let (source, divisor) = v4x7_rules::adc_from_usbhs(q.byte(), q.byte(), q.byte())?;
    let mut a = Reply::of_word(source);
    a.word(divisor);
    Ok(a)
}

fn part(code: u8) -> Part {
    match code {
        0 => Part::V1,
        1 => Part::L1,
        _ => Part::V30x,
    }
}

pub fn pll_output(mut q: Query<'_>) -> Result<Reply, Refusal> {
    let part = part(q.byte());
    let setting = Setting {
        source: pll32::source_of(q.flag()),
        prediv: q.byte(),
        mul: q.byte(),
    };
    let output = pll32::pll_output(part, q.number(), setting)?;
    Ok(Reply::of_word(output.hz))
}
