// CH32V1, CH32L1, CH32V30x and CH32H4.
use crate::query::Query;
use crate::reply::Reply;
use answer::Refusal;
use pll32::ClockRecord;
use v1::{Chip, PllPreDiv};
use v30x::PllSource;

fn v1_pll(q: &mut Query<'_>) -> Option<v1::Pll> {
    let present = q.flag();
    let prediv = if q.byte() == 1 {
        PllPreDiv::Div1
    } else {
        PllPreDiv::Div2
    };
    let pll = v1::Pll {
        prediv,
        mul: q.byte(),
    };
    present.then_some(pll)
}

fn v1_config(q: &mut Query<'_>) -> v1::Config {
    v1::Config {
        hse: q.hse(),
        sys: q.byte(),
        pll_src: pll32::source_of(q.flag()),
        pll: v1_pll(q),
        ahb_pre: q.byte(),
        apb1_pre: q.byte(),
        apb2_pre: q.byte(),
    }
}

fn v1_fields(q: &mut Query<'_>) -> v1::Fields {
    v1::Fields {
        sws: q.byte(),
        pllsrc: q.flag(),
        pllxtpre: q.flag(),
        pllmul: q.byte(),
        hpre: q.byte(),
        ppre1: q.byte(),
        ppre2: q.byte(),
        hsipre: q.flag(),
    }
}

// The clocks of a check, and twice the USB divisor.
fn checked(checked: Result<ClockRecord, Refusal>) -> Reply {
    // Taken by `let .. else`, as document 01 has the accepted clocks taken.
    let Ok(accepted) = checked else {
        return Reply::numbered(answer::number(checked));
    };
    let mut a = Reply::of_clocks(accepted.clocks);
    a.byte(accepted.usb);
    a
}

fn v1_init(chip: Chip, mut q: Query<'_>) -> Result<Reply, Refusal> {
    let config = v1_config(&mut q);
    let f = v1::init_fields(chip, config, v1_fields(&mut q))?;
    let mut a = Reply::accepted();
    a.byte(f.sws);
    a.flag(f.pllsrc);
    a.flag(f.pllxtpre);
    a.bytes(&[f.pllmul, f.hpre, f.ppre1, f.ppre2]);
    a.flag(f.hsipre);
    Ok(a)
}

fn v1_decode(chip: Chip, mut q: Query<'_>) -> Result<Reply, Refusal> {
    let fields = v1_fields(&mut q);
    let clocks = v1::decode(chip, fields, q.number())?;
    Ok(Reply::of_clocks(clocks))
}

// A code of a query. A C host's has its reader in `capi_v30x`; `v30x` knows neither, so no `From` stands there.
fn pll_source(code: u8) -> PllSource {
    match code {
        0 => PllSource::Hsi,
        1 => PllSource::Hse,
        _ => PllSource::Pll2,
    }
}

fn v30x_pll(q: &mut Query<'_>) -> Option<v30x::Pll> {
    let present = q.flag();
    let pll = v30x::Pll {
        prediv: q.byte(),
        mul: q.byte(),
    };
    present.then_some(pll)
}

fn v30x_config(q: &mut Query<'_>) -> v30x::Config {
    v30x::Config {
        hse: q.hse(),
        sys: q.byte(),
        pll_src: pll_source(q.byte()),
        pll: v30x_pll(q),
        pllx: q.flag(),
        ahb_pre: q.byte(),
        apb1_pre: q.byte(),
        apb2_pre: q.byte(),
        hspll_src: pll32::source_of(q.flag()),
        hspll: q.code(),
    }
}

fn v30x_fields(q: &mut Query<'_>) -> v30x::Fields {
    v30x::Fields {
        sws: q.byte(),
        pllsrc: q.flag(),
        prediv1: q.byte(),
        prediv1src: q.flag(),
        pllmul: q.byte(),
        hpre: q.byte(),
        ppre1: q.byte(),
        ppre2: q.byte(),
        hsipre: q.flag(),
    }
}

fn v30x_init(mut q: Query<'_>) -> Result<Reply, Refusal> {
    let config = v30x_config(&mut q);
    let f = v30x::init_fields(config, v30x_fields(&mut q))?;
    let mut a = Reply::accepted();
    a.byte(f.sws);
    a.flag(f.pllsrc);
    a.byte(f.prediv1);
    a.flag(f.prediv1src);
    a.bytes(&[f.pllmul, f.hpre, f.ppre1, f.ppre2]);
    a.flag(f.hsipre);
    Ok(a)
}

fn v30x_decode(mut q: Query<'_>) -> Result<Reply, Refusal> {
    let fields = v30x_fields(&mut q);
    let clocks = v30x::decode(fields, q.number())?;
    Ok(Reply::of_clocks(clocks))
}

fn h4_ahb(mut q: Query<'_>) -> Result<Reply, Refusal> {
    let sysclk = divider::hertz(q.word());
    let ahb = h4::ahb_from_sysclk(sysclk, q.byte())?;
    Ok(Reply::of_word(ahb.hz))
}

fn h4_hclk(mut q: Query<'_>) -> Reply {
    let ahb = divider::hertz(q.word());
    Reply::of_word(h4::hclk_from_ahb(ahb, q.byte()).hz)
}

fn h4_pclk(mut q: Query<'_>) -> Result<Reply, Refusal> {
    let hclk = divider::hertz(q.word());
    let (pclk, tim) = h4::pclk_from_hclk(hclk, q.byte())?;
    let mut a = Reply::of_word(pclk.hz);
    a.word(tim);
    Ok(a)
}

fn h4_multiplier(mut q: Query<'_>) -> Result<Reply, Refusal> {
    let doubled = h4::pll_mul_x2(q.byte())?;
    Ok(Reply::of_word(doubled))
}

// A match, as `answered` in main.rt, which says why.
pub fn answer(kind: u8, mut q: Query<'_>) -> Result<Reply, Refusal> {
    match kind {
        0x10 => Ok(checked(v1::check(Chip::V1, v1_config(&mut q)))),
        0x11 => v1_init(Chip::V1, q),
        0x12 => v1_decode(Chip::V1, q),
        0x18 => Ok(checked(v1::check(Chip::L1, v1_config(&mut q)))),
        0x19 => v1_init(Chip::L1, q),
        0x1a => v1_decode(Chip::L1, q),
        0x20 => Ok(checked(v30x::check(v30x_config(&mut q)))),
        0x21 => v30x_init(q),
        0x22 => v30x_decode(q),
        0x30 => h4_ahb(q),
        0x31 => Ok(h4_hclk(q)),
        0x32 => h4_pclk(q),
        0x33 => h4_multiplier(q),
        _ => Ok(Reply::accepted()),
    }
}
