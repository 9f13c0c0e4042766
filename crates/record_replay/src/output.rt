//! The output lines of a replay, given to a sink in large pieces.

ghost use Rattle.std.specs.Prelude.{◌≡◌, ◌+◌, ◌*◌, ◌≤◌, [], length, false, refl};
ghost use Rattle.std.proofs.Common.{◌∙◌};
ghost use Rattle.std.specs.Bool.{OnTrue, OnFalse};
ghost use Rattle.std.specs.Fmt.{decimal};
ghost use Rattle.hex.specs.Hex.{encode_upper};
ghost use Rattle.record_replay.specs.Replay.{leave_line};
ghost use Rattle.record_replay.specs.OutputInside.{HasNothing, Puts, Gives, IsAllGiven};
ghost use Rattle.record_replay.specs.OutputInside.{IsCutShort, turn_head, turn_end};
ghost use Rattle.record_replay.specs.OutputLaws.{gives_none, gives_more};

use itoa::Buffer;
use line_text::Room;
use panel_session::{Drain, Outlet};
use plant_config::PanelNo;

// The most bytes whose hexadecimal has room in an empty buffer.
const MOST_BYTES: usize = 32 << 10;

/// An output that lines are put into. Where a write of its sink fails, it drops what comes later.
// kit: with a `Vec` of its own the caller would know nothing of the sink after the drop; so the buffer is lent too.
#[derive(Drop)]
pub(crate) struct Output<'k, K: Drain> {
    out: &'k mut K,
    buffer: &'k mut Room,
    // Whether the line of a turn has bytes so far.
    some: bool,
    failed: bool,
}

impl<'k, K: Drain> Output<'k, K> {
    // Nothing was put yet. The buffer is lent: of an output that owned memory no caller would know, once it is dropped, what
    // became of the sink.
    pub(crate) fn new(buffer: &'k mut Room, out: &'k mut K) -> Output<'k, K>
        requires { buffer.old ≡ [] }
        ensures same_sink { result.out.ghost_name ≡ out.entry.ghost_name }
        ensures nothing { HasNothing K.written K.faults out.old result }
    {
        Output {
            out,
            buffer,
            some: false,
            failed: false,
        }
    }

    // Puts these bytes: one test for room serves them all.
    #[inline]
    pub(crate) fn put(&mut self, bytes: &[u8])
        requires { length bytes.now ≤ 65536 }
        ensures puts { Puts K.written K.faults bytes.now self.old self.new }
        ensures some { self.new.some ≡ self.old.some }
    {
        self.make_room(bytes.len());
        self.buffer.push_all(bytes);
    }

    // Puts a number in decimal. Most have one digit.
    #[inline]
    fn put_number(&mut self, number: u32)
        ensures puts { Puts K.written K.faults (decimal number) self.old self.new }
        ensures some { self.new.some ≡ self.old.some }
    {
        if number < 10 {
            self.put(&[b'0' + number as u8]);
        } else {
            self.put(Buffer::new().format(number).as_bytes());
        }
    }

    // Puts bytes in hexadecimal, for which there is room.
    #[inline]
    fn push_hex(&mut self, bytes: &[u8])
        requires { length self.old.buffer.now + 2 * length bytes.now ≤ 65536 }
        ensures puts { Puts K.written K.faults (encode_upper bytes.now) self.old self.new }
        ensures some { self.new.some ≡ self.old.some }
    {
        self.buffer.push_hex(bytes);
    }

    // Puts bytes in hexadecimal.
    pub(crate) fn put_hex(&mut self, bytes: &[u8])
        requires { 2 * length bytes.now ≤ 65536 }
        ensures puts { Puts K.written K.faults (encode_upper bytes.now) self.old self.new }
        ensures some { self.new.some ≡ self.old.some }
    {
        self.make_room(2 * bytes.len());
        self.push_hex(bytes);
    }

    // Puts bytes in hexadecimal, of which there may be more than there is room for, or than there is at once.
    #[cold]
    fn put_pieces(&mut self, bytes: &[u8])
        ensures puts { Puts K.written K.faults (encode_upper bytes.now) self.old self.new }
        ensures some { self.new.some ≡ self.old.some }
    {
        let mut at = 0;
        while at < bytes.len() {
            let end = at + (bytes.len() - at).min(MOST_BYTES);
            self.put_hex(&bytes[at..end]);
            at = end;
        }
    }

    // Empties the buffer if it hasn't room for so many bytes more.
    #[inline]
    fn make_room(&mut self, count: usize)
        requires { count ≤ 65536 }
        ensures puts { Puts K.written K.faults [] self.old self.new }
        ensures room { length self.new.buffer.now + count ≤ 65536 }
        ensures some { self.new.some ≡ self.old.some }
    {
        if !self.buffer.has_room(count) {
            self.flush();
        }
    }

    // Gives the sink what is in the buffer, if no write failed.
    #[cold]
    fn flush(&mut self)
        ensures puts { Puts K.written K.faults [] self.old self.new }
        ensures empty { self.new.buffer.now ≡ [] }
        ensures some { self.new.some ≡ self.old.some }
    {
        if self.failed {
            self.buffer.clear();
            return;
        }
        self.failed = !self.out.take(self.buffer.bytes());
        self.buffer.clear();
    }

    // Begins the line of a turn.
    pub(crate) fn begin_turn(&mut self, panel: PanelNo)
        ensures puts { Puts K.written K.faults (turn_head panel) self.old self.new }
        ensures none { self.new.some ≡ false }
    {
        self.put_head(panel.get());
        self.some = false;
    }

    // Puts how the line of a turn begins. Where the number has one digit, one test for room serves it all.
    #[inline]
    fn put_head(&mut self, number: u32)
        ensures { Puts K.written K.faults (turn_head number) self.old self.new }
    {
        if number < 10 {
            self.put(&[b'<', b' ', b'0' + number as u8, b' ']);
        } else {
            self.put(b"< ");
            self.put_number(number);
            self.put(b" ");
        }
    }

    // Ends the line of a turn.
    pub(crate) fn end_turn(&mut self)
        ensures { Puts K.written K.faults (turn_end self.old.some) self.old self.new }
    {
        if self.some {
            self.put(b"\n");
        } else {
            self.put(b"-\n");
        }
    }

    // Puts the line of a panel that leaves.
    pub(crate) fn leave_line(&mut self, panel: PanelNo)
        ensures { Puts K.written K.faults (leave_line panel) self.old self.new }
    {
        self.put(b"leave ");
        self.put_number(panel.get());
        self.put(b"\n");
    }

    // Whether a write failed.
    pub(crate) fn failed(&self) -> bool
        ensures { result ≡ self.now.failed }
    {
        self.failed
    }

    // Gives the sink what it wasn't given yet, and answers whether it was given all that was put.
    pub(crate) fn finish(self) -> bool
        ensures failed { OnTrue result (self.entry.failed ≡ false) }
        ensures whole { OnTrue result
            (IsAllGiven K.written K.faults self.entry self.exit.0.now) }
        ensures cut { OnFalse result
            (IsCutShort K.written K.faults self.entry self.exit.0.now) }
    {
        let Output {
            out,
            buffer,
            some: _,
            failed,
        } = self;
        if failed {
            return false;
        }
        out.take(buffer.bytes())
    }
}

impl<K: Drain> Outlet for Output<'_, K> {
    ghost IsSame = { λ first last. last.out.ghost_name ≡ first.out.ghost_name };

    ghost Given = { λ old bytes new. Gives K.written K.faults bytes old new };

    // It takes all: whether a write failed it keeps to itself, and its owner asks for it.
    ghost Failed = { λ old bytes new. ⊥ };

    // Out of line, where the loop's values stay in registers.
    #[inline(never)]
    fn give(&mut self, bytes: &[u8]) -> bool {
        self.some = self.some || !bytes.is_empty();
        if bytes.len() <= MOST_BYTES && self.buffer.has_room(2 * bytes.len()) {
            self.push_hex(bytes);
        } else {
            self.put_pieces(bytes);
        }
        true
    }

    ghost same_none = { λ outlet. refl };

    ghost same_more = { λ first next last one other. other ∙ one };

    ghost given_none = { gives_none K.written K.faults };

    ghost given_more = { gives_more K.written K.faults };
}
