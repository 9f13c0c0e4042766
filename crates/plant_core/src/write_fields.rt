//! The fields of a state's text are written.

ghost use Rattle.std.specs.Prelude.{◌≡◌, ◌+◌, ◌<◌, ◌≤◌, ◌++◌, length, vec_len, vec_capacity};
ghost use Rattle.change_boards.specs.Notices.{board_of};
ghost use Rattle.plant_core.specs.StateText.{four, two, four_or_none, two_or_none, bit};
ghost use Rattle.plant_core.specs.StateText.{spot_text, entry_text, notices_of, display_text};

use change_boards::{Notices, Sort, Value};
use crosspoint_state::Spot;
use plant_config::{Change, DestId, MAX_DESTINATIONS, PanelNo, SourceId, TieNo};

/// What stands for no source and no tie.
pub(crate) const NO_NUMBER: u32 = u32::MAX;
/// What stands for no device.
pub(crate) const NO_DEVICE: u16 = u16::MAX;

/// What a destination carries.
pub(crate) fn write_spot(spot: Option<Spot>, out: &mut Vec<u8>)
    requires room { vec_len out.old + 8 ≤ vec_capacity out.old }
    ensures text { out.new.items ≡ out.old.items ++ spot_text spot }
    ensures len { vec_len out.new ≡ vec_len out.old + 8 }
    ensures room { vec_capacity out.new ≡ vec_capacity out.old }
{
    match spot {
        Some(Spot { source, tie }) => {
            write_number(source.get(), out);
            write_tie(tie, out);
        }
        None => {
            write_number(NO_NUMBER, out);
            write_number(NO_NUMBER, out);
        }
    }
}

/// A place of a group: its change, zeros where there is none.
pub(crate) fn write_entry(entry: Option<Change>, out: &mut Vec<u8>)
    requires room { vec_len out.old + 8 ≤ vec_capacity out.old }
    ensures text { out.new.items ≡ out.old.items ++ entry_text entry }
    ensures len { vec_len out.new ≡ vec_len out.old + 8 }
    ensures room { vec_capacity out.new ≡ vec_capacity out.old }
{
    match entry {
        Some(Change { dest, source }) => {
            write_number(dest.get(), out);
            write_source(source, out);
        }
        None => append(&[0; 8], out),
    }
}

/// What a display was last shown, zeros where that is nothing.
pub(crate) fn write_display(value: Option<Value>, out: &mut Vec<u8>)
    requires room { vec_len out.old + 7 ≤ vec_capacity out.old }
    ensures text { out.new.items ≡ out.old.items ++ display_text value }
    ensures len { vec_len out.new ≡ vec_len out.old + 7 }
    ensures room { vec_capacity out.new ≡ vec_capacity out.old }
{
    match value {
        Some(
            Value {
                source,
                air,
                preview,
            },
        ) => {
            out.push_reserved(1);
            write_source(source, out);
            out.push_reserved(bit(air));
            out.push_reserved(bit(preview));
        }
        None => append(&[0; 7], out),
    }
}

/// Whether a panel has left: 1 or 0.
pub(crate) fn left_of(notices: &Notices, panel: PanelNo) -> u8
    requires { panel < length notices.now }
    ensures { result ≡ bit (board_of notices.now panel).left }
{
    bit(notices.has_left(panel))
}

/// The notices that a panel has of a destination.
pub(crate) fn notices_of(notices: &Notices, panel: PanelNo, dest: DestId) -> u8
    requires panel { panel < length notices.now }
    requires dest { dest < MAX_DESTINATIONS }
    ensures { result ≡ notices_of (board_of notices.now panel) dest }
{
    let source = bit(notices.has(panel, dest, Sort::Source));
    let protect = bit(notices.has(panel, dest, Sort::Protect));
    source + 2 * protect
}

// 1 for what is so, 0 for what isn't.
fn bit(is: bool) -> u8
    ensures value { result ≡ bit is }
    ensures below { result < 2 }
{
    if is { 1 } else { 0 }
}

/// The device that protects a destination.
pub(crate) fn write_owner(owner: Option<u16>, out: &mut Vec<u8>)
    requires room { vec_len out.old + 2 ≤ vec_capacity out.old }
    ensures text { out.new.items ≡ out.old.items ++ two_or_none owner }
    ensures len { vec_len out.new ≡ vec_len out.old + 2 }
    ensures room { vec_capacity out.new ≡ vec_capacity out.old }
{
    match owner {
        Some(device) => write_word(device, out),
        None => write_word(NO_DEVICE, out),
    }
}

// A source, or none.
fn write_source(source: Option<SourceId>, out: &mut Vec<u8>)
    requires room { vec_len out.old + 4 ≤ vec_capacity out.old }
    ensures text { out.new.items ≡ out.old.items ++ four_or_none source }
    ensures len { vec_len out.new ≡ vec_len out.old + 4 }
    ensures room { vec_capacity out.new ≡ vec_capacity out.old }
{
    match source {
        Some(source) => write_number(source.get(), out),
        None => write_number(NO_NUMBER, out),
    }
}

// A tie, or none.
fn write_tie(tie: Option<TieNo>, out: &mut Vec<u8>)
    requires room { vec_len out.old + 4 ≤ vec_capacity out.old }
    ensures text { out.new.items ≡ out.old.items ++ four_or_none tie }
    ensures len { vec_len out.new ≡ vec_len out.old + 4 }
    ensures room { vec_capacity out.new ≡ vec_capacity out.old }
{
    match tie {
        Some(tie) => write_number(tie.get(), out),
        None => write_number(NO_NUMBER, out),
    }
}

/// A number of four bytes.
pub(crate) fn write_number(number: u32, out: &mut Vec<u8>)
    requires room { vec_len out.old + 4 ≤ vec_capacity out.old }
    ensures text { out.new.items ≡ out.old.items ++ four number }
    ensures len { vec_len out.new ≡ vec_len out.old + 4 }
    ensures room { vec_capacity out.new ≡ vec_capacity out.old }
{
    append(&number.to_le_bytes(), out);
}

/// A number of two bytes.
pub(crate) fn write_word(number: u16, out: &mut Vec<u8>)
    requires room { vec_len out.old + 2 ≤ vec_capacity out.old }
    ensures text { out.new.items ≡ out.old.items ++ two number }
    ensures len { vec_len out.new ≡ vec_len out.old + 2 }
    ensures room { vec_capacity out.new ≡ vec_capacity out.old }
{
    append(&number.to_le_bytes(), out);
}

/// Bytes for which there is room.
pub(crate) fn append(bytes: &[u8], out: &mut Vec<u8>)
    requires room { vec_len out.old + length bytes.now ≤ vec_capacity out.old }
    ensures text { out.new.items ≡ out.old.items ++ bytes.now }
    ensures len { vec_len out.new ≡ vec_len out.old + length bytes.now }
    ensures room { vec_capacity out.new ≡ vec_capacity out.old }
{
    for byte in bytes {
        out.push_reserved(*byte);
    }
}
