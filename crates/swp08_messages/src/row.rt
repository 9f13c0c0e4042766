//! A message as the row of its fields, from which it is written and by which DATA is refused.

ghost use Rattle.std.specs.Prelude.{◌≡◌, ◌≢◌, ◌+◌, ◌<◌, ◌≤◌, ◌^◌, ◌++◌, ◌↔◌, IsTrue};
ghost use Rattle.std.specs.Prelude.{length, map, vec_len, vec_capacity};
ghost use Rattle.swp08_messages.specs.Row.{row};
ghost use Rattle.swp08_messages.specs.ReadingInside.{limit_of, fault_of};
ghost use Rattle.swp08_messages.specs.ViewsInside.{all_hold, first_over};

use crate::fault::ReadFault;
use crate::message::Message;

/// Whether all of these hold.
#[inline(always)]
pub(crate) fn all_hold(rooms: &[bool]) -> bool
    ensures { result ≡ all_hold rooms.now }
{
    for room in rooms {
        if !*room {
            return false;
        }
    }
    true
}

/// Appends these bytes.
#[inline(always)]
pub(crate) fn push_all(bytes: &[u8], out: &mut Vec<u8>)
    requires { vec_len out.old + length bytes.now ≤ vec_capacity out.old }
    ensures text { out.new.items ≡ out.old.items ++ bytes.now }
    ensures room { vec_capacity out.new ≡ vec_capacity out.old }
{
    for byte in bytes {
        out.push_reserved(*byte);
    }
}

/// Whether these are the same bytes.
pub(crate) fn are_same(some: &[u8], others: &[u8]) -> bool
    ensures { IsTrue result ↔ (some.now ≡ others.now) }
{
    if some.len() != others.len() {
        return false;
    }
    for (place, byte) in some.iter().enumerate() {
        if *byte != others[place] {
            return false;
        }
    }
    true
}

impl Message {
    /// The first fault of the bytes behind a command: they are of another number than the fields, or the first that is no
    /// value of its field. The spare fields count where there are bytes for them.
    #[inline(always)]
    pub(crate) fn fault(&self, behind: &[u8]) -> Option<ReadFault>
        ensures { result ≡ fault_of (row self.now).fields (row self.now).spare behind.now }
    {
        let fields = self.fields::<u16>();
        if behind.len() == fields.len() {
            return first_bad(1, fields.as_slice(), behind);
        }
        self.fault_of_others(fields.as_slice(), behind)
    }

    // The same of bytes that are of another number than the fields, whose limits these are.
    #[inline(never)]
    fn fault_of_others(&self, fields: &[u16], behind: &[u8]) -> Option<ReadFault>
        requires limits { fields.now ≡ map limit_of (row self.now).fields }
        requires others { length behind.now ≢ length fields.now }
        ensures { result ≡ fault_of (row self.now).fields (row self.now).spare behind.now }
    {
        let spare = self.spare::<u16>();
        let spare = spare.as_slice();
        if behind.len() != fields.len() + spare.len() {
            return Some(ReadFault::WrongLength(1 + behind.len(), 1 + fields.len()));
        }
        let (kept, more) = behind.split_at(fields.len());
        match first_bad(1, fields, kept) {
            None => first_bad(1 + fields.len(), spare, more),
            fault => fault,
        }
    }
}

// The first of these bytes that isn't below its limit, `first` being the place of the first byte.
#[inline(always)]
fn first_bad(first: usize, limits: &[u16], bytes: &[u8]) -> Option<ReadFault>
    requires same { length bytes.now ≡ length limits.now }
    requires places { first + length bytes.now < 2 ^ 64 }
    ensures { result ≡ first_over first limits.now bytes.now }
{
    for (place, byte) in bytes.iter().enumerate() {
        if u16::from(*byte) >= limits[place] {
            return Some(ReadFault::BadField(first + place, *byte));
        }
    }
    None
}
