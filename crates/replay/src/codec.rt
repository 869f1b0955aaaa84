// The profile and image readers and writers.
use crate::query::Query;
use crate::reply::{Reply, written};
use answer::Refusal;
use image::{Cfgr0, Cfgr2, Ctlr, Fields, Seen};
use tree::Hse;
use v4x7::{AdcClockSource, Config};

// A length above this counts as this.
const LONGEST: usize = 32;

fn put_hse(a: &mut Reply, hse: Option<Hse>) {
    a.flag(hse.is_some());
    let absent = Hse {
        bypass: false,
        freq: 0,
    };
    let Hse { bypass, freq } = hse.unwrap_or(absent);
    a.flag(bypass);
    a.word(freq);
}

fn usbhs_divisor(adc: AdcClockSource) -> Option<u8> {
    match adc {
        AdcClockSource::Hclk => None,
        AdcClockSource::UsbHsPll { divisor } => Some(divisor),
    }
}

// CONFIG, absent parts zero.
fn put_config(a: &mut Reply, c: Config) {
    put_hse(a, c.hse);
    a.bytes(&[c.sys, c.pll_src]);
    a.code(c.pll);
    a.bytes(&[c.syspll_src, c.syspll_pre]);
    a.code(c.hspll);
    a.flag(c.ethpll);
    a.bytes(&[c.ahb_pre, c.apb1_pre, c.apb2_pre, c.rng_src]);
    a.code(usbhs_divisor(c.adc_src));
    a.bytes(&[c.adc_pre, c.adc_duty]);
}

pub fn read_profile(mut q: Query<'_>) -> Result<Reply, Refusal> {
    let config = profile::read_profile(q.lent(LONGEST))?;
    let mut a = Reply::accepted();
    put_config(&mut a, config);
    Ok(a)
}

pub fn write_profile(mut q: Query<'_>) -> Reply {
    let config = q.config();
    let n = usize::from(q.byte()).min(LONGEST);
    let mut lent = [q.byte(); LONGEST];
    let outcome = profile::write_profile(config, &mut lent[..n]);
    written(outcome, &lent[..n])
}

fn put_ctlr(a: &mut Reply, ctlr: Ctlr) {
    a.flag(ctlr.hsion);
    a.flag(ctlr.hsebyp);
    a.flag(ctlr.hseon);
    a.flag(ctlr.csson);
    a.flag(ctlr.pllon);
    a.flag(ctlr.usbhs_pllon);
    a.flag(ctlr.eth_pllon);
}

fn put_seen(a: &mut Reply, seen: Seen) {
    a.flag(seen.hsirdy);
    a.flag(seen.hserdy);
    a.flag(seen.pllrdy);
    a.flag(seen.usbhs_pllrdy);
    a.flag(seen.eth_pllrdy);
    a.byte(seen.sws);
}

fn put_cfgr0(a: &mut Reply, cfgr0: Cfgr0) {
    a.byte(cfgr0.sw);
    a.flag(cfgr0.pllsrc);
    a.bytes(&[
        cfgr0.pllmul,
        cfgr0.hpre,
        cfgr0.ppre1,
        cfgr0.ppre2,
        cfgr0.adcpre,
    ]);
    a.flag(cfgr0.adcsrc);
    a.byte(cfgr0.adc_duty);
}

fn put_cfgr2(a: &mut Reply, cfgr2: Cfgr2) {
    a.bytes(&[
        cfgr2.usbhspllsrc,
        cfgr2.usbhspllclk,
        cfgr2.syspllsrc,
        cfgr2.sysplldiv,
    ]);
    a.flag(cfgr2.syspll_gate);
    a.flag(cfgr2.rngsrc);
    a.flag(cfgr2.i2spllsrc);
}

// FIELDS.
fn put_fields(a: &mut Reply, f: Fields) {
    put_ctlr(a, f.ctlr);
    put_seen(a, f.seen);
    put_cfgr0(a, f.cfgr0);
    put_cfgr2(a, f.cfgr2);
    a.bytes(&[f.cfgr3.adc_clkdiv, f.flash.sckmod]);
    a.flag(f.flash.lock);
    a.flag(f.flash.flock);
}

pub fn read_image(mut q: Query<'_>) -> Result<Reply, Refusal> {
    let fields = image::read_image(q.lent(LONGEST))?;
    let mut a = Reply::accepted();
    put_fields(&mut a, fields);
    Ok(a)
}

// As a profile is written; one function for both would take the writer as a closure, and be no shorter.
pub fn write_image(mut q: Query<'_>) -> Reply {
    let fields = q.fields();
    let n = usize::from(q.byte()).min(LONGEST);
    let mut lent = [q.byte(); LONGEST];
    let outcome = image::write_image(fields, &mut lent[..n]);
    written(outcome, &lent[..n])
}
