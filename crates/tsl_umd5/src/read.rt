//! Reading a packet.

ghost use Rattle.std.specs.Prelude.{◌≡◌, ◌<◌, ◌^◌, ◌∷◌, [], Ok, Err, ◌↔◌, MatchResult, IsOk};
ghost use Rattle.std.specs.Prelude.{IfOk, IfSome, IfNone, length};
ghost use Rattle.tsl_umd5.specs.Layout.{packet_head};
ghost use Rattle.tsl_umd5.specs.Packet.{Contents, view, IsTextOf, OneText};
ghost use Rattle.tsl_umd5.specs.Reading.{all_at, contents, packet_reading};
ghost use Rattle.tsl_umd5.specs.Refusal.{IsRefused};

use crate::fault::TslFault;
use crate::layout::{COUNT_BYTES, FLAGS, MAX_PACKET, MESSAGE_HEAD, PACKET_HEAD, VERSION};
use crate::message::front;
use crate::shown::Shown;
use std::marker::Model;

/// A packet that was read: its screen, and the displays that are still to be taken. It borrows the bytes.
#[derive(Debug, Drop)]
pub struct Packet<'a> {
    screen: u16,
    messages: &'a [u8],
}

impl<'a> Model for Packet<'a> {
    ghost use Rattle.tsl_umd5.specs.Packet.{Contents};
    ghost use Rattle.tsl_umd5.specs.ReadingInside.{displays_in, AreMessages};

    ghost Value = { Contents };

    ghost view = { λ p. record { screen = p.screen; displays = displays_in p.messages.now } };

    ghost invariant = { λ p. AreMessages p.messages.now };
}

impl<'a> Packet<'a> {
    /// SCREEN: the number of the screen. 65535 is a number like any other here.
    pub fn screen(&self) -> u16
        ensures { result ≡ self.now.screen }
    {
        self.screen
    }

    /// Takes the first of the displays that are left; the answer is `None` where none is left. The messages were judged
    /// by `read_packet`, and are not judged again.
    pub fn next(&mut self) -> Option<Shown<'a>>
        ensures first { IfSome result
            (λ shown. self.old.displays ≡ view shown ∷ self.new.displays) }
        ensures none { IfNone result ((self.old.displays ≡ []) × (self.new.displays ≡ [])) }
        ensures screen { self.new.screen ≡ self.old.screen }
    {
        if self.messages.is_empty() {
            return None;
        }
        let Some((message, rest)) = front(self.messages) else {
            unreachable!()
        };
        self.messages = rest;
        Some(message.shown())
    }
}

/// Reads a packet, all of the bytes, and takes no memory. Each display message is judged here, once.
///
/// Of TSL UMD Protocol V5.0 this profile leaves out control data (bit 15 of CONTROL), and UTF-16 texts and screen
/// control (bits of FLAGS), so a packet with one of them is refused; it also leaves out the form for byte streams.
/// It bounds a packet by `MAX_PACKET`.
pub fn read_packet(bytes: &[u8]) -> Result<Packet<'_>, TslFault>
    // What is read is the one text of this screen and these displays.
    ensures found { IfOk result (IsTextOf bytes.now) }
    // What is the text of a screen and displays is read as them.
    ensures only { (p : Contents) → IsTextOf bytes.now p → result ≡ Ok p }
    // A fault is the first rule that the bytes break, and the first rule that they break is the fault.
    ensures refused { (fault : TslFault) → (result ≡ Err fault) ↔ IsRefused bytes.now fault }
    // In one function: what is read, or the fault.
    ensures exact { result ≡ packet_reading bytes.now }
{
    packet_of(bytes)
}

/// No two packets have one text.
pub fn one_text()
    ensures { OneText }
{}

// Reads a packet that isn't too long.
#[tactic(auto, unfolding(crate::specs::Reading::packet_reading))]
fn packet_of(bytes: &[u8]) -> Result<Packet<'_>, TslFault>
    ensures { result ≡ packet_reading bytes.now }
{
    if bytes.len() > MAX_PACKET {
        return Err(TslFault::TooLong(bytes.len()));
    }
    contents_of(bytes)
}

// Reads the head, and has the messages judged.
#[tactic(auto, unfolding(crate::specs::Reading::contents))]
fn contents_of(bytes: &[u8]) -> Result<Packet<'_>, TslFault>
    ensures { result ≡ contents bytes.now }
{
    let [p0, p1, version, flags, s0, s1, messages @ ..] = bytes else {
        return Err(TslFault::Short(bytes.len()));
    };
    let found = bytes.len() - COUNT_BYTES;
    let wanted = usize::from(u16::from_le_bytes([*p0, *p1]));
    if found != wanted {
        return Err(TslFault::WrongCount(found, wanted));
    }
    if *version != VERSION {
        return Err(TslFault::Version(*version));
    }
    if *flags != FLAGS {
        return Err(TslFault::Flags(*flags));
    }
    check_messages(messages)?;
    let screen = u16::from_le_bytes([*s0, *s1]);
    Ok(Packet { screen, messages })
}

// Judges display messages one after another, the first of which begins behind the packet's head.
fn check_messages(messages: &[u8]) -> Result<(), TslFault>
    requires { length messages.now < 2 ^ 16 }
    ensures { MatchResult result
        (λ _. IsOk (all_at packet_head messages.now))
        (λ fault. all_at packet_head messages.now ≡ Err fault) }
{
    let mut place = PACKET_HEAD;
    let mut rest = messages;
    while !rest.is_empty() {
        let Some((message, after)) = front(rest) else {
            return Err(TslFault::Short(place));
        };
        message.judge(place)?;
        place += MESSAGE_HEAD + message.text.len();
        rest = after;
    }
    Ok(())
}
