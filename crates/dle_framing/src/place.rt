//! Where the first DLE of a text is.
ghost use Rattle.std.specs.Prelude.{◌≡◌, ◌<◌, ◌≤◌, [], length, take, slice_index};
ghost use Rattle.dle_framing.specs.Frame.{doubled};
ghost use Rattle.dle_framing.specs.Items.{only_rest, reading};

use crate::control::DLE;

// Where the first DLE of a text is, or the text's end. What stands before it is noise outside a frame, and in a frame its
// own spelling.
pub(crate) fn dle_place(text: &[u8]) -> usize
    ensures within { result ≤ length text.now }
    ensures noise { reading (take result text.now) ≡ only_rest [] }
    ensures single { doubled (take result text.now) ≡ take result text.now }
    ensures found { result < length text.now → slice_index text.now result ≡ DLE }
{
    for (place, byte) in text.iter().enumerate() {
        if *byte == DLE {
            return place;
        }
    }
    text.len()
}
