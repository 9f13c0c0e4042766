//! Where the first DLE of a text is.
ghost use Rattle.std.specs.Prelude.{◌≡◌, ◌<◌, ◌≤◌, [], length, take, slice_index};
ghost use Rattle.tsl_stream.specs.Stream.{stuffed};
ghost use Rattle.doubled_bytes.specs.Reading.{only_rest};
ghost use Rattle.tsl_stream.specs.Items.{stream_reading};

use crate::control::DLE;
use memchr::memchr;

// Where the first DLE of a text is, or the text's end. What stands before it is noise outside a packet, and in a packet
// its own spelling.
pub(crate) fn dle_place(text: &[u8]) -> usize
    ensures within { result ≤ length text.now }
    ensures noise { stream_reading (take result text.now) ≡ only_rest [] }
    ensures single { stuffed (take result text.now) ≡ take result text.now }
{
    memchr(DLE, text).unwrap_or(text.len())
}
