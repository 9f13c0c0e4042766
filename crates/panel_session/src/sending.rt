//! What is to be sent: a control alone, or bytes that hold it and the frames behind it.

ghost use Rattle.std.specs.Prelude.{◌≡◌, ◌≤◌, length, drop, vec_len, vec_capacity};
ghost use Rattle.panel_session.specs.OutgoingKept.{sent_as};
ghost use Rattle.panel_session.specs.declared.sending.Sending.TheVariants.{Bytes};

pub(crate) mod answer_frames;
pub(crate) mod dump_page;
pub(crate) mod name_frames;
pub(crate) mod name_page;
pub(crate) mod outgoing;
pub(crate) mod sender;
pub(crate) mod spell;

use dle_framing::{append_ack, append_nak};

// What is to be sent. While a control is sent alone, the bytes stand as they were, with the last frame in them.
#[derive(Clone, Copy)]
pub(crate) enum Sending {
    Nothing,
    Ack,
    Nak,
    Bytes,
}

// Makes the bytes what is to be sent so far, for a frame behind them that is newly sent: it begins at their end.
pub(crate) fn begin(
    sending: &mut Sending,
    bytes: &mut Vec<u8>,
    last_from: &mut usize,
    repeats: &mut u32,
)
    requires { 2 ≤ vec_capacity bytes.old }
    ensures bytes { bytes.new.items ≡ sent_as sending.old bytes.old.items }
    ensures sending { sending.new ≡ Bytes }
    ensures last { last_from.new ≡ vec_len bytes.new }
    ensures repeats { repeats.new ≡ 0 }
    ensures room { vec_capacity bytes.new ≡ vec_capacity bytes.old }
{
    match *sending {
        Sending::Nothing => bytes.clear(),
        Sending::Ack => {
            bytes.clear();
            append_ack(bytes);
        }
        Sending::Nak => {
            bytes.clear();
            append_nak(bytes);
        }
        Sending::Bytes => {}
    }
    *sending = Sending::Bytes;
    *last_from = bytes.len();
    *repeats = 0;
}

// Drops so many bytes at the front.
pub(crate) fn drop_front(bytes: &mut Vec<u8>, count: usize)
    requires { count ≤ length bytes.old.items }
    ensures bytes { bytes.new.items ≡ drop count bytes.old.items }
    ensures room { vec_capacity bytes.new ≡ vec_capacity bytes.old }
{
    let left = bytes.len() - count;
    bytes.as_mut_slice().rotate_left(count);
    bytes.truncate(left);
}
