//! A display message of a packet that is read.

ghost use Rattle.std.specs.Prelude.{◌≡◌, ◌<◌, ◌+◌, ◌^◌, Ok, Err, MatchResult, IfSome, length};
ghost use Rattle.std.specs.Option.{option_map};
ghost use Rattle.tsl_umd5.specs.Layout.{message_head};
ghost use Rattle.tsl_umd5.specs.Packet.{view};
ghost use Rattle.tsl_umd5.specs.Reading.{display_of, front, judged};
ghost use Rattle.tsl_umd5.specs.ReadingInside.{fields};

use crate::fault::TslFault;
use crate::lamp::Lamp;
use crate::layout::MESSAGE_HEAD;
use crate::shown::{Shown, first_unprintable};

// The fields of a display message, before they are judged.
#[derive(Clone, Copy)]
pub(crate) struct Message<'a> {
    pub(crate) index: u16,
    pub(crate) control: u16,
    pub(crate) text: &'a [u8],
}

// The message at the front and the bytes behind it, unless its head or its text goes past the end.
#[tactic(auto, unfolding(crate::specs::Reading::front))]
pub(crate) fn front(bytes: &[u8]) -> Option<(Message<'_>, &[u8])>
    ensures found { option_map (λ x. (fields x.0, x.1.now)) result ≡ front bytes.now }
    ensures len { IfSome result
        (λ x. length bytes.now ≡ message_head + length x.0.text.now + length x.1.now) }
{
    let [i0, i1, c0, c1, n0, n1, rest @ ..] = bytes else {
        return None;
    };
    let len = usize::from(u16::from_le_bytes([*n0, *n1]));
    if rest.len() < len {
        return None;
    }
    let (text, rest) = rest.split_at(len);
    let index = u16::from_le_bytes([*i0, *i1]);
    let control = u16::from_le_bytes([*c0, *c1]);
    Some((
        Message {
            index,
            control,
            text,
        },
        rest,
    ))
}

impl<'a> Message<'a> {
    // What is wrong with the message, which begins at this place of the packet.
    #[tactic(auto, unfolding(crate::specs::Reading::judged))]
    pub(crate) fn judge(&self, place: usize) -> Result<(), TslFault>
        requires { place + message_head + length self.now.text.now < 2 ^ 64 }
        ensures { MatchResult result
            (λ _. judged place (fields self.now) ≡ Ok (display_of (fields self.now)))
            (λ fault. judged place (fields self.now) ≡ Err fault) }
    {
        if self.control > 0xff {
            return Err(TslFault::ReservedBits(self.index));
        }
        match first_unprintable(self.text) {
            Some(offset) => Err(TslFault::NotAscii(place + MESSAGE_HEAD + offset)),
            None => Ok(()),
        }
    }

    // What the message says of its display.
    pub(crate) fn shown(&self) -> Shown<'a>
        requires { self.now.control < 256 }
        ensures { view result ≡ display_of (fields self.now) }
    {
        let bits = self.control as u8;
        Shown {
            index: self.index,
            right: Lamp::from_code(bits & 0b11),
            middle: Lamp::from_code(bits >> 2 & 0b11),
            left: Lamp::from_code(bits >> 4 & 0b11),
            brightness: bits >> 6,
            text: self.text,
        }
    }
}
