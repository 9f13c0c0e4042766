//! The control bytes of SW-P-08, this project's limits of a frame, and the two answers that are no frames.
ghost use Rattle.std.specs.Prelude.{◌≡◌, ◌+◌, ◌≤◌, ◌++◌, vec_len, vec_capacity};
ghost use Rattle.dle_framing.specs.Numbers.{ack, nak};

/// Before each control byte; a byte of its value inside a frame is sent twice.
pub const DLE: u8 = 0x10;
/// Behind a DLE: a frame starts.
pub const STX: u8 = 0x02;
/// Behind a DLE: the frame ends.
pub const ETX: u8 = 0x03;
/// Behind a DLE: the last frame was good.
pub const ACK: u8 = 0x06;
/// Behind a DLE: the last frame was bad.
pub const NAK: u8 = 0x15;

/// The most bytes of DATA in one frame. This bound is this project's profile.
pub const MAX_DATA: usize = 255;
/// The fewest bytes of a good frame's body: one byte of DATA, its length and the check byte.
pub const MIN_BODY: usize = 3;
/// The most bytes of a good frame's body.
pub const MAX_BODY: usize = MAX_DATA + 2;
/// The most bytes of one frame, which 255 bytes of DATA have that are all DLE.
pub const MAX_FRAME: usize = 516;

/// Appends DLE ACK, which says that the last frame was good. It takes no memory.
pub fn append_ack(out: &mut Vec<u8>)
    requires { vec_len out.old + 2 ≤ vec_capacity out.old }
    ensures ack { out.new.items ≡ out.old.items ++ ack }
    ensures room { vec_capacity out.new ≡ vec_capacity out.old }
{
    out.push_reserved(DLE);
    out.push_reserved(ACK);
}

/// Appends DLE NAK, which says that the last frame was bad. It takes no memory.
pub fn append_nak(out: &mut Vec<u8>)
    requires { vec_len out.old + 2 ≤ vec_capacity out.old }
    ensures nak { out.new.items ≡ out.old.items ++ nak }
    ensures room { vec_capacity out.new ≡ vec_capacity out.old }
{
    out.push_reserved(DLE);
    out.push_reserved(NAK);
}
