// The parts of a query, each behind the one before.
use image::{Cfgr0, Cfgr2, Cfgr3, Ctlr, Fields, Flash, Seen};
use startup::Reading;
use tree::{Clocks, Hse};
use v4x7::{AdcClockSource, Config};

// What is left of a query. Past its end come zeros.
#[derive(Clone, Copy)]
pub struct Query<'a> {
    rest: &'a [u8],
}

impl<'a> Query<'a> {
    pub fn of(bytes: &'a [u8]) -> Query<'a> {
        Query { rest: bytes }
    }

    pub fn byte(&mut self) -> u8 {
        let Some((first, rest)) = self.rest.split_first() else {
            return 0;
        };
        self.rest = rest;
        *first
    }

    pub fn flag(&mut self) -> bool {
        self.byte() != 0
    }

    // A number of four bytes, the most significant first.
    pub fn word(&mut self) -> u32 {
        u32::from_be_bytes([self.byte(), self.byte(), self.byte(), self.byte()])
    }

    // The next n bytes, or all that are left.
    pub fn bytes(&mut self, n: usize) -> &'a [u8] {
        let (taken, rest) = self.rest.split_at(n.min(self.rest.len()));
        self.rest = rest;
        taken
    }

    // A length of one byte and so many bytes; a length above the limit counts as the limit.
    pub fn lent(&mut self, limit: usize) -> &'a [u8] {
        let n = usize::from(self.byte()).min(limit);
        self.bytes(n)
    }

    // A number that may be absent.
    pub fn number(&mut self) -> Option<u32> {
        let present = self.flag();
        let number = self.word();
        present.then_some(number)
    }

    // A code that may be absent.
    pub fn code(&mut self) -> Option<u8> {
        let present = self.flag();
        let code = self.byte();
        present.then_some(code)
    }

    pub fn hse(&mut self) -> Option<Hse> {
        let present = self.flag();
        let hse = Hse {
            bypass: self.flag(),
            freq: self.word(),
        };
        present.then_some(hse)
    }

    fn adc_source(&mut self) -> AdcClockSource {
        match self.code() {
            None => AdcClockSource::Hclk,
            Some(divisor) => AdcClockSource::UsbHsPll { divisor },
        }
    }

    pub fn config(&mut self) -> Config {
        Config {
            hse: self.hse(),
            sys: self.byte(),
            pll_src: self.byte(),
            pll: self.code(),
            syspll_src: self.byte(),
            syspll_pre: self.byte(),
            hspll: self.code(),
            ethpll: self.flag(),
            ahb_pre: self.byte(),
            apb1_pre: self.byte(),
            apb2_pre: self.byte(),
            rng_src: self.byte(),
            adc_src: self.adc_source(),
            adc_pre: self.byte(),
            adc_duty: self.byte(),
        }
    }

    fn ctlr(&mut self) -> Ctlr {
        Ctlr {
            hsion: self.flag(),
            hsebyp: self.flag(),
            hseon: self.flag(),
            csson: self.flag(),
            pllon: self.flag(),
            usbhs_pllon: self.flag(),
            eth_pllon: self.flag(),
        }
    }

    fn seen(&mut self) -> Seen {
        Seen {
            hsirdy: self.flag(),
            hserdy: self.flag(),
            pllrdy: self.flag(),
            usbhs_pllrdy: self.flag(),
            eth_pllrdy: self.flag(),
            sws: self.byte(),
        }
    }

    fn cfgr0(&mut self) -> Cfgr0 {
        Cfgr0 {
            sw: self.byte(),
            pllsrc: self.flag(),
            pllmul: self.byte(),
            hpre: self.byte(),
            ppre1: self.byte(),
            ppre2: self.byte(),
            adcpre: self.byte(),
            adcsrc: self.flag(),
            adc_duty: self.byte(),
        }
    }

    fn cfgr2(&mut self) -> Cfgr2 {
        Cfgr2 {
            usbhspllsrc: self.byte(),
            usbhspllclk: self.byte(),
            syspllsrc: self.byte(),
            sysplldiv: self.byte(),
            syspll_gate: self.flag(),
            rngsrc: self.flag(),
            i2spllsrc: self.flag(),
        }
    }

    pub fn fields(&mut self) -> Fields {
        Fields {
            ctlr: self.ctlr(),
            seen: self.seen(),
            cfgr0: self.cfgr0(),
            cfgr2: self.cfgr2(),
            cfgr3: Cfgr3 {
                adc_clkdiv: self.byte(),
            },
            flash: Flash {
                sckmod: self.byte(),
                lock: self.flag(),
                flock: self.flag(),
            },
        }
    }

    pub fn clocks(&mut self) -> Clocks {
        Clocks {
            sysclk: self.word(),
            hclk: self.word(),
            pclk1: self.word(),
            pclk2: self.word(),
            pclk1_tim: self.word(),
            pclk2_tim: self.word(),
        }
    }

    // READING: a byte of ready bits, and one with SWS in the high four bits and SCKMOD in the low four.
    pub fn reading(&mut self) -> Reading {
        let ready = self.byte();
        let codes = self.byte();
        Reading {
            seen: Seen {
                hsirdy: ready & 0x80 != 0,
                hserdy: ready & 0x40 != 0,
                pllrdy: ready & 0x20 != 0,
                usbhs_pllrdy: ready & 0x10 != 0,
                eth_pllrdy: ready & 0x08 != 0,
                sws: codes / 16,
            },
            sckmod: codes % 16,
        }
    }
}
