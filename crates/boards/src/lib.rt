// A tray of boards at once: profiles back to back, and for each the 32 bytes that say what its check says.
#![tactic(auto)]

ghost use Rattle.std.specs.Prelude.{◌≡◌, ◌+◌, ◌≤◌, length};
ghost use Rattle.std.proofs.lemmas.List.Edits.{sets};
ghost use Rattle.answer.specs.Said.{says};
ghost use Rattle.layout.specs.Numbers.{in_fours};
ghost use Rattle.boards.specs.Tray.{numbers_of, board_of, Trayed};

use answer::Refusal;
use v4x7::ClockRecord;

// The bytes of a board's record.
pub const RECORD: usize = 32;

// The numbers of a board's record: the refusal number or 0, then the seven frequencies in the program's order; zeros after a refusal. The six clocks
// stand in `capi_give` in this order too, in arrays of other lengths, which no copy of one into another joins.
fn numbers(checked: Result<ClockRecord, Refusal>) -> [u32; 8]
    ensures { result ≡ numbers_of (says checked) }
{
    let Ok(accepted) = checked else {
        return [u32::from(answer::number(checked)), 0, 0, 0, 0, 0, 0, 0];
    };
    let k = accepted.clocks;
    [
        0,
        k.sysclk,
        k.hclk,
        k.pclk1,
        k.pclk2,
        k.pclk1_tim,
        k.pclk2_tim,
        accepted.adc,
    ]
}

// Writes the eight numbers of a record, at its place, as `put_numbers` takes it (`with_numbers`).
#[tactic(auto, using(layout::proofs::Filling::numbers_put))]
fn put_record(out: &mut [u8], at: usize, xs: [u32; 8])
    requires { at + 32 ≤ length out.old }
    ensures { out.new ≡ sets out.old at (in_fours xs) }
{
    layout::put_numbers(out, at, &xs);
}

// The record of one board. A profile that is not ten bytes is refused by 29, as its record says.
#[tactic(auto, using(crate::proofs::Filling::its_record, crate::proofs::Filling::sets_whole, crate::specs::Laws::board_length))]
pub fn board(profile: &[u8]) -> [u8; 32]
    ensures { result ≡ board_of profile.now }
{
    let mut record = [0u8; RECORD];
    put_record(&mut record, 0, numbers(profile::check_profile(profile)));
    record
}

// Writes the records of all profiles, which lie back to back, at the start of out; the bytes beyond stay.
// Refused by 32: out has fewer than 32 bytes for each whole ten of profiles. Then by 29: their length is not a multiple of ten.
#[tactic(auto, using(crate::proofs::Filling::its_record, crate::proofs::Filling::board_stored, crate::proofs::Filling::too_short))]
pub fn tray(profiles: &[u8], out: &mut [u8]) -> Result<(), Refusal>
    ensures { Trayed profiles.now out.old out.new result }
{
    let count = profiles.len() / profile::SIZE;
    if out.len() / RECORD < count {
        return Err(Refusal::OutputTooShort);
    }
    if profiles.len() % profile::SIZE != 0 {
        return Err(Refusal::ProfileLength);
    }
    // A record's place is counted: `put_numbers` takes it in the whole of out.
    for (i, profile) in profiles.chunks_exact(profile::SIZE).enumerate() {
        put_record(out, i * RECORD, numbers(profile::check_profile(profile)));
    }
    Ok(())
}
