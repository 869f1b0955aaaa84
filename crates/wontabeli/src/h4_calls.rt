// CH32H4. What each call does is said in `capi_h4`.
ghost use Rattle.answer.specs.Answer.{gives};
ghost use Rattle.divider.specs.declared.Family.TheVariants.{H4};
ghost use Rattle.divider.specs.Divide.{fpre_divisor, by_ahb_of};
ghost use Rattle.divider.specs.Frequency.{whole, over};
ghost use Rattle.h4.specs.H4.{doubled_of};
ghost use Rattle.capi_give.specs.Given.{Given, GivenOne, two_words, seven_words};
ghost use Rattle.capi_h4.specs.Calls.{in_hertz, bus_words_of, clocks_ahb_of};

#[unsafe(no_mangle)]
pub extern "C" fn wontabeli_h4_clocks(
    sysclk: u32,
    hpre: u8,
    fpre: u8,
    ppre1: u8,
    ppre2: u8,
    out: &mut [u32],
) -> u8
    ensures { Given 7 (seven_words (clocks_ahb_of sysclk hpre fpre ppre1 ppre2)) out.old out.new result }
{
    capi_h4::wontabeli_h4_clocks(sysclk, hpre, fpre, ppre1, ppre2, out)
}

#[unsafe(no_mangle)]
pub extern "C" fn wontabeli_h4_ahb(sysclk: u32, hpre: u8, out: &mut u32) -> u8
    ensures { GivenOne (in_hertz (by_ahb_of H4 (whole sysclk) hpre)) out.old out.new result }
{
    capi_h4::wontabeli_h4_ahb(sysclk, hpre, out)
}

#[unsafe(no_mangle)]
pub extern "C" fn wontabeli_h4_hclk(ahb: u32, fpre: u8, out: &mut u32) -> u8
    ensures { GivenOne (gives (over (whole ahb) (fpre_divisor fpre)).hz) out.old out.new result }
{
    capi_h4::wontabeli_h4_hclk(ahb, fpre, out)
}

#[unsafe(no_mangle)]
pub extern "C" fn wontabeli_h4_pclk(hclk: u32, ppre: u8, out: &mut [u32]) -> u8
    ensures { Given 2 (two_words (bus_words_of hclk ppre)) out.old out.new result }
{
    capi_h4::wontabeli_h4_pclk(hclk, ppre, out)
}

#[unsafe(no_mangle)]
pub extern "C" fn wontabeli_h4_multiplier(position: u8, out: &mut u32) -> u8
    ensures { GivenOne (doubled_of position) out.old out.new result }
{
    capi_h4::wontabeli_h4_multiplier(position, out)
}
