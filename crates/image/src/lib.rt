// The register fields that the clocks depend on, and their image of eight bytes.
#![tactic(auto)]

ghost use Rattle.std.specs.Prelude.{◌≡◌, ◌≤◌, ◌<◌, get_or};
ghost use Rattle.answer.specs.Said.{says};
ghost use Rattle.layout.specs.Lent.{Wrote};
ghost use Rattle.layout.specs.Bits.{cut};
ghost use Rattle.image.specs.Words.{ctlr_number, seen_number, cfgr0_early, cfgr0_late, cfgr2_number, flash_number, early_of, late_of};
ghost use Rattle.image.specs.Width.{Wide};
ghost use Rattle.image.specs.Image.{widths, ctlr_of, seen_of, cfgr0_of, cfgr2_of, flash_of, fields_of, in_width, read_image, image_bytes};

use answer::Refusal;

// CTLR: what switches the oscillators and PLLs on.
#[derive(Clone, Copy, Debug, PartialEq, Eq)]
pub struct Ctlr {
    pub hsion: bool,
    pub hsebyp: bool,
    pub hseon: bool,
    pub csson: bool,
    pub pllon: bool,
    pub usbhs_pllon: bool,
    pub eth_pllon: bool,
}

// What only the chip writes, and a reading holds: CTLR's ready bits and CFGR0's SWS.
#[derive(Clone, Copy, Debug, PartialEq, Eq)]
pub struct Seen {
    pub hsirdy: bool,
    pub hserdy: bool,
    pub pllrdy: bool,
    pub usbhs_pllrdy: bool,
    pub eth_pllrdy: bool,
    pub sws: u8,
}

#[derive(Clone, Copy, Debug, PartialEq, Eq)]
pub struct Cfgr0 {
    pub sw: u8,
    pub pllsrc: bool,
    pub pllmul: u8,
    pub hpre: u8,
    pub ppre1: u8,
    pub ppre2: u8,
    pub adcpre: u8,
    pub adcsrc: bool,
    pub adc_duty: u8,
}

#[derive(Clone, Copy, Debug, PartialEq, Eq)]
pub struct Cfgr2 {
    pub usbhspllsrc: u8,
    pub usbhspllclk: u8,
    pub syspllsrc: u8,
    pub sysplldiv: u8,
    pub syspll_gate: bool,
    pub rngsrc: bool,
    pub i2spllsrc: bool,
}

#[derive(Clone, Copy, Debug, PartialEq, Eq)]
pub struct Cfgr3 {
    pub adc_clkdiv: u8,
}

// FLASH CTLR.
#[derive(Clone, Copy, Debug, PartialEq, Eq)]
pub struct Flash {
    pub sckmod: u8,
    pub lock: bool,
    pub flock: bool,
}

// The 33 fields, register by register, in the image's order.
#[derive(Clone, Copy, Debug, PartialEq, Eq)]
pub struct Fields {
    pub ctlr: Ctlr,
    pub seen: Seen,
    pub cfgr0: Cfgr0,
    pub cfgr2: Cfgr2,
    pub cfgr3: Cfgr3,
    pub flash: Flash,
}

// The fields' widths, in order, and the filling's.
pub const WIDTHS: [u8; 34] = [
    1, // HSION
    1, // HSEBYP
    1, // HSEON
    1, // CSSON
    1, // PLLON
    1, // USBHS_PLLON
    1, // ETH_PLLON
    1, // HSIRDY
    1, // HSERDY
    1, // PLLRDY
    1, // USBHS_PLLRDY
    1, // ETH_PLLRDY
    2, // SWS
    2, // SW
    1, // PLLSRC
    5, // PLLMUL
    4, // HPRE
    3, // PPRE1
    3, // PPRE2
    2, // ADCPRE
    1, // ADCSRC
    2, // ADC_DUTY
    2, // USBHSPLLSRC
    2, // USBHSPLLCLK
    3, // SYSPLLSRC
    3, // SYSPLLDIV
    1, // SYSPLL_GATE
    1, // RNGSRC
    1, // I2SPLLSRC
    5, // ADC_CLKDIV
    2, // SCKMOD
    1, // LOCK
    1, // FLOCK
    5, // filling
];

// The field k of an image, by its place in the list of widths. `profile` has the same of its own list: it is here for its clause, `cut` of this list.
fn field(s: &[u8], k: usize) -> u8
    ensures { result ≡ get_or (cut widths s.now 0) k 0 }
{
    layout::field(&WIDTHS, s, k)
}

// The fields of each register.
fn ctlr_of(s: &[u8]) -> Ctlr
    ensures { result ≡ ctlr_of (cut widths s.now 0) }
{
    Ctlr {
        hsion: field(s, 0) == 1,
        hsebyp: field(s, 1) == 1,
        hseon: field(s, 2) == 1,
        csson: field(s, 3) == 1,
        pllon: field(s, 4) == 1,
        usbhs_pllon: field(s, 5) == 1,
        eth_pllon: field(s, 6) == 1,
    }
}

fn seen_of(s: &[u8]) -> Seen
    ensures { result ≡ seen_of (cut widths s.now 0) }
{
    Seen {
        hsirdy: field(s, 7) == 1,
        hserdy: field(s, 8) == 1,
        pllrdy: field(s, 9) == 1,
        usbhs_pllrdy: field(s, 10) == 1,
        eth_pllrdy: field(s, 11) == 1,
        sws: field(s, 12),
    }
}

fn cfgr0_of(s: &[u8]) -> Cfgr0
    ensures { result ≡ cfgr0_of (cut widths s.now 0) }
{
    Cfgr0 {
        sw: field(s, 13),
        pllsrc: field(s, 14) == 1,
        pllmul: field(s, 15),
        hpre: field(s, 16),
        ppre1: field(s, 17),
        ppre2: field(s, 18),
        adcpre: field(s, 19),
        adcsrc: field(s, 20) == 1,
        adc_duty: field(s, 21),
    }
}

fn cfgr2_of(s: &[u8]) -> Cfgr2
    ensures { result ≡ cfgr2_of (cut widths s.now 0) }
{
    Cfgr2 {
        usbhspllsrc: field(s, 22),
        usbhspllclk: field(s, 23),
        syspllsrc: field(s, 24),
        sysplldiv: field(s, 25),
        syspll_gate: field(s, 26) == 1,
        rngsrc: field(s, 27) == 1,
        i2spllsrc: field(s, 28) == 1,
    }
}

fn flash_of(s: &[u8]) -> Flash
    ensures { result ≡ flash_of (cut widths s.now 0) }
{
    Flash {
        sckmod: field(s, 30),
        lock: field(s, 31) == 1,
        flock: field(s, 32) == 1,
    }
}

#[tactic(auto, unfolding(crate::specs::Image::fields_of))]
fn fields_of(s: &[u8]) -> Fields
    ensures { result ≡ fields_of (cut widths s.now 0) }
{
    // First, which costs a reader 23 instructions less than in its turn (docs/BENCHMARKS.md).
    let flash = flash_of(s);
    Fields {
        ctlr: ctlr_of(s),
        seen: seen_of(s),
        cfgr0: cfgr0_of(s),
        cfgr2: cfgr2_of(s),
        cfgr3: Cfgr3 {
            adc_clkdiv: field(s, 29),
        },
        flash,
    }
}

// Reads an image. Refused by 31: not eight bytes, or the filling not zero.
#[tactic(auto, unfolding(crate::specs::Image::read_image))]
pub fn read_image(s: &[u8]) -> Result<Fields, Refusal>
    ensures { says result ≡ read_image s.now }
{
    if s.len() != 8 {
        return Err(Refusal::ImageLengthOrFilling);
    }
    if field(s, 33) != 0 {
        return Err(Refusal::ImageLengthOrFilling);
    }
    Ok(fields_of(s))
}

// Is every code within its field's width? The decoder and the startup ask this too.
#[tactic(auto, unfolding(crate::specs::Image::in_widths))]
pub fn in_width(f: Fields) -> bool
    ensures { result ≡ in_width f }
{
    (f.seen.sws < 4)
        & (f.cfgr0.sw < 4)
        & (f.cfgr0.pllmul < 32)
        & (f.cfgr0.hpre < 16)
        & (f.cfgr0.ppre1 < 8)
        & (f.cfgr0.ppre2 < 8)
        & (f.cfgr0.adcpre < 4)
        & (f.cfgr0.adc_duty < 4)
        & (f.cfgr2.usbhspllsrc < 4)
        & (f.cfgr2.usbhspllclk < 4)
        & (f.cfgr2.syspllsrc < 8)
        & (f.cfgr2.sysplldiv < 8)
        & (f.cfgr3.adc_clkdiv < 32)
        & (f.flash.sckmod < 4)
}

// Each register's fields as one number, in the image's order. Each weight is what its field's width leaves behind it. Written by the list of widths, as a profile is, an
// image took some 870 instructions more (docs/DECISIONS.md).
fn ctlr_number(c: Ctlr) -> u32
    ensures { (result ≡ ctlr_number c) × (result < 128) }
{
    64 * u32::from(c.hsion)
        + 32 * u32::from(c.hsebyp)
        + 16 * u32::from(c.hseon)
        + 8 * u32::from(c.csson)
        + 4 * u32::from(c.pllon)
        + 2 * u32::from(c.usbhs_pllon)
        + u32::from(c.eth_pllon)
}

fn seen_number(s: Seen) -> u32
    requires { s.sws < 4 }
    ensures { (result ≡ seen_number s) × (result < 128) }
{
    64 * u32::from(s.hsirdy)
        + 32 * u32::from(s.hserdy)
        + 16 * u32::from(s.pllrdy)
        + 8 * u32::from(s.usbhs_pllrdy)
        + 4 * u32::from(s.eth_pllrdy)
        + u32::from(s.sws)
}

// CFGR0's fields up to PPRE2, and those behind it.
fn cfgr0_early(c: Cfgr0) -> u32
    requires { (c.sw < 4) × (c.pllmul < 32) × (c.hpre < 16) × (c.ppre1 < 8) × (c.ppre2 < 8) }
    ensures { (result ≡ cfgr0_early c) × (result < 262144) }
{
    65536 * u32::from(c.sw)
        + 32768 * u32::from(c.pllsrc)
        + 1024 * u32::from(c.pllmul)
        + 64 * u32::from(c.hpre)
        + 8 * u32::from(c.ppre1)
        + u32::from(c.ppre2)
}

fn cfgr0_late(c: Cfgr0) -> u32
    requires { (c.adcpre < 4) × (c.adc_duty < 4) }
    ensures { (result ≡ cfgr0_late c) × (result < 32) }
{
    8 * u32::from(c.adcpre) + 4 * u32::from(c.adcsrc) + u32::from(c.adc_duty)
}

fn cfgr2_number(c: Cfgr2) -> u32
    requires { (c.usbhspllsrc < 4) × (c.usbhspllclk < 4) × (c.syspllsrc < 8) × (c.sysplldiv < 8) }
    ensures { (result ≡ cfgr2_number c) × (result < 8192) }
{
    2048 * u32::from(c.usbhspllsrc)
        + 512 * u32::from(c.usbhspllclk)
        + 64 * u32::from(c.syspllsrc)
        + 8 * u32::from(c.sysplldiv)
        + 4 * u32::from(c.syspll_gate)
        + 2 * u32::from(c.rngsrc)
        + u32::from(c.i2spllsrc)
}

fn flash_number(c: Flash) -> u32
    requires { c.sckmod < 4 }
    ensures { (result ≡ flash_number c) × (result < 16) }
{
    4 * u32::from(c.sckmod) + 2 * u32::from(c.lock) + u32::from(c.flock)
}

// The image's first four bytes as a number, and its last four.
fn early(f: Fields) -> u32
    requires { Wide f }
    ensures { result ≡ early_of f }
{
    0x200_0000 * ctlr_number(f.ctlr) + 0x4_0000 * seen_number(f.seen) + cfgr0_early(f.cfgr0)
}

fn late(f: Fields) -> u32
    requires { Wide f }
    ensures { result ≡ late_of f }
{
    let clkdiv = u32::from(f.cfgr3.adc_clkdiv);
    0x800_0000 * cfgr0_late(f.cfgr0)
        + 0x4000 * cfgr2_number(f.cfgr2)
        + 512 * clkdiv
        + 32 * flash_number(f.flash)
}

// Writes the image into the first eight bytes; those beyond stay. Refused by 32: fewer bytes; then by 28: a code too wide.
pub fn write_image(f: Fields, out: &mut [u8]) -> Result<(), Refusal>
    ensures { Wrote 8 (image_bytes f) out.old out.new result }
{
    if out.len() < 8 {
        return Err(Refusal::OutputTooShort);
    }
    if !in_width(f) {
        return Err(Refusal::CodeNotAllowed);
    }
    let words = [early(f), late(f)];
    layout::put_numbers(out, 0, &words);
    Ok(())
}
