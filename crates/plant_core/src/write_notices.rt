//! The notices of a panel are written, 64 destinations at once.

ghost use Rattle.std.specs.Prelude.{◌≡◌, ◌+◌, ◌*◌, ◌/◌, ◌%◌, ◌<◌, ◌≤◌, ◌++◌, length, map};
ghost use Rattle.std.specs.Prelude.{vec_len, vec_capacity};
ghost use Rattle.std.specs.List.{range_with_len};
ghost use Rattle.change_boards.specs.Destinations.{word_limit};
ghost use Rattle.change_boards.specs.Notices.{board_of};
ghost use Rattle.plant_core.specs.StateText.{notices_of};
ghost use Rattle.plant_core.specs.WriteInside.{spread, notices_by, four_notices};

use crate::write_fields::{append, notices_of};
use change_boards::{Notices, Sort};
use plant_config::{DestId, MAX_DESTINATIONS, PanelNo};
use std::mem::{forget, replace};

/// The notices that a panel has of so many destinations.
pub(crate) fn write_notices(notices: &Notices, panel: PanelNo, count: u32, out: &mut Vec<u8>)
    requires panel { panel < length notices.now }
    requires count { count ≤ MAX_DESTINATIONS }
    requires room { vec_len out.old + count ≤ vec_capacity out.old }
    ensures text { out.new.items ≡ out.old.items
        ++ map (notices_of (board_of notices.now panel)) (range_with_len 0 count) }
    ensures len { vec_len out.new ≡ vec_len out.old + count }
    ensures room { vec_capacity out.new ≡ vec_capacity out.old }
{
    write_places(notices, panel, count / 64, out);
    write_rest(notices, panel, count, out);
}

// Those of so many times 64 destinations.
fn write_places(notices: &Notices, panel: PanelNo, places: u32, out: &mut Vec<u8>)
    requires panel { panel < length notices.now }
    requires places { places ≤ word_limit }
    requires room { vec_len out.old + 64 * places ≤ vec_capacity out.old }
    ensures text { out.new.items ≡ out.old.items
        ++ map (notices_of (board_of notices.now panel)) (range_with_len 0 (64 * places)) }
    ensures len { vec_len out.new ≡ vec_len out.old + 64 * places }
    ensures room { vec_capacity out.new ≡ vec_capacity out.old }
{
    for place in 0..places {
        write_place(notices, panel, place, out);
    }
}

// Those of the last of so many destinations, behind the 64s.
fn write_rest(notices: &Notices, panel: PanelNo, count: u32, out: &mut Vec<u8>)
    requires panel { panel < length notices.now }
    requires count { count ≤ MAX_DESTINATIONS }
    requires room { vec_len out.old + count % 64 ≤ vec_capacity out.old }
    ensures text { out.new.items ≡ out.old.items
        ++ map (λ at. notices_of (board_of notices.now panel) (64 * (count / 64) + at))
        (range_with_len 0 (count % 64)) }
    ensures len { vec_len out.new ≡ vec_len out.old + count % 64 }
    ensures room { vec_capacity out.new ≡ vec_capacity out.old }
{
    for at in 0..count % 64 {
        let dest = DestId::of(64 * (count / 64) + at);
        out.push_reserved(notices_of(notices, panel, dest));
    }
}

// Those of 64 destinations, from 64 times `place` on.
fn write_place(notices: &Notices, panel: PanelNo, place: u32, out: &mut Vec<u8>)
    requires panel { panel < length notices.now }
    requires place { place < word_limit }
    requires room { vec_len out.old + 64 ≤ vec_capacity out.old }
    ensures text { out.new.items ≡ out.old.items
        ++ map (λ at. notices_of (board_of notices.now panel) (64 * place + at))
        (range_with_len 0 64) }
    ensures len { vec_len out.new ≡ vec_len out.old + 64 }
    ensures room { vec_capacity out.new ≡ vec_capacity out.old }
{
    let source = notices.word(panel, place, Sort::Source);
    let protect = notices.word(panel, place, Sort::Protect);
    // Meanwhile the vector stands by itself, so that where its bytes are isn't read again behind each of them.
    let empty = Vec::new(*out.allocator());
    let mut whole = replace(out, empty);
    write_bits(source, protect, &mut whole);
    forget(replace(out, whole));
}

// Those that the bits of two words tell.
fn write_bits(source: u64, protect: u64, out: &mut Vec<u8>)
    requires room { vec_len out.old + 64 ≤ vec_capacity out.old }
    ensures text { out.new.items
        ≡ out.old.items ++ map (notices_by source protect) (range_with_len 0 64) }
    ensures len { vec_len out.new ≡ vec_len out.old + 64 }
    ensures room { vec_capacity out.new ≡ vec_capacity out.old }
{
    for quarter in 0..16u32 {
        let four = four_notices(source >> (4 * quarter), protect >> (4 * quarter));
        append(&four, out);
    }
}

// Those that the lowest four bits of two words tell.
fn four_notices(source: u64, protect: u64) -> [u8; 4]
    ensures { result ≡ four_notices source protect }
{
    let four = spread((source % 16) as u32) + 2 * spread((protect % 16) as u32);
    four.to_le_bytes()
}

// Four bits, each as a byte of its own.
#[tactic(auto, using(crate::proofs::NoticeTextLemmas::spread_is))]
fn spread(bits: u32) -> u32
    requires { bits < 16 }
    ensures { result ≡ spread bits }
{
    (bits * 0x0020_4081) & 0x0101_0101
}
