//! A stream in pieces: what is kept of it between them, and the items that end in each.
ghost use Rattle.std.specs.Prelude.{◌≡◌, ℕ, ◌<◌, ◌≤◌, List, [], length, take};
ghost use Rattle.std.specs.Prelude.{IfSome, IfNone, IsTrue};
ghost use Rattle.std.specs.Borrow.{sem};
ghost use Rattle.std.specs.Option.{option_map};
ghost use Rattle.dle_framing.specs.Feeding.{Feeds, shown};
ghost use Rattle.dle_framing.specs.Frame.{enclosed};
ghost use Rattle.dle_framing.specs.Items.{is_good, item_of};

use crate::body::is_whole;
use crate::control::{ACK, DLE, ETX, NAK, STX};
use crate::front::Front;
use crate::item::Item;
use crate::place::dle_place;
use crate::start::behind_start;
use doubled_bytes::State;

/// Gives the items of a stream of bytes, in whatever pieces it comes. It stands for the text that it was fed, of which it
/// keeps at most 258 bytes, however long a frame is. It has these bytes, their number and their sum and nothing else, so no
/// call of it takes memory.
#[derive(Drop)]
pub struct Framer {
    state: State,
    front: Front,
}

impl Framer {
    ghost use Rattle.dle_framing.specs.Framer.{StandsFor, GoesOver, EndsOver};
    ghost use Rattle.dle_framing.specs.StepsInside.{IsBehindDle, Steps, found_in};
    ghost use Rattle.dle_framing.specs.FramerInside.{PassesOver};

    /// A framer that was fed nothing.
    pub fn new() -> Framer
        ensures { StandsFor result [] }
    {
        Framer {
            state: State::Outside,
            front: Front::new(),
        }
    }

    /// Makes it as a new one: what it had of a frame is forgotten.
    pub fn reset(&mut self)
        ensures { StandsFor self.new [] }
    {
        // Outside a frame nothing of the front is looked at, so it may stay.
        self.state = State::Outside;
    }

    /// Takes the next piece of the stream up to the end of the first item that ends in it. It answers how many bytes it
    /// used, and that item, whose DATA are lent until the framer is used again. The item is None where none ends in the
    /// piece, and then all of it was used. It refuses nothing and takes no memory.
    // It has several callers, and a session asks it of each piece: so it is made part of each of them.
    #[inline(always)]
    pub fn feed(&mut self, piece: &[u8]) -> (usize, Option<Item<&[u8]>>)
        ensures* stands { sem 𝓛 (EndsOver self.entry (take result.0 piece.now)) }
        ensures within { result.0 ≤ length piece.now }
        ensures progress { 0 < length piece.now → 0 < result.0 }
        ensures feeds { (text : List ℕ) → StandsFor self.old text
            → Feeds text piece.now result.0 (option_map shown result.1) }
    {
        let (used, item) = self.take_item(piece);
        // kit: with the item bound over the arms of one `match`, `Item::Good(())` among them, and returned behind it, the
        // clause on the lender is lost; so each arm returns, and `with_data` makes the item.
        match item {
            Some(item) => (used, Some(self.with_data(item))),
            None => (used, None),
        }
    }

    // Takes the bytes that `feed` takes. The DATA of a good frame stay in the front.
    #[inline(always)]
    fn take_item(&mut self, piece: &[u8]) -> (usize, Option<Item<()>>)
        ensures stands { GoesOver (take result.0 piece.now) self.old self.new }
        ensures within { result.0 ≤ length piece.now }
        ensures progress { 0 < length piece.now → 0 < result.0 }
        ensures feeds { (text : List ℕ) → StandsFor self.old text
            → Feeds text piece.now result.0 (option_map (found_in self.new.front) result.1) }
    {
        match self.take_whole(piece) {
            Some(used) => (used, Some(Item::Good(()))),
            None => self.take_by_runs(piece),
        }
    }

    // Short way: takes the good frame of 4 or 5 bytes of DATA, none of its body DLE, that the piece starts with outside a
    // frame, and answers how many bytes it has. Most frames are such. None where the piece starts with no such frame.
    #[inline(always)]
    fn take_whole(&mut self, piece: &[u8]) -> Option<usize>
        ensures none { IfNone result (self.new ≡ self.old) }
        ensures within { IfSome result (λ used. used ≤ length piece.now) }
        ensures outside { IfSome result (λ _. (self.old.state ≡ State.Outside)
            × (self.new.state ≡ State.Outside)) }
        ensures good { IfSome result (λ _. IsTrue (is_good self.new.front)) }
        ensures frame { IfSome result (λ used. take used piece.now ≡ enclosed self.new.front) }
    {
        let State::Outside = self.state else {
            return None;
        };
        match piece {
            [DLE, STX, a, b, c, d, 4, check, DLE, ETX, ..] if is_whole(&piece[2..8]) => {
                self.front.restart(&[*a, *b, *c, *d, 4, *check]);
                Some(10)
            }
            [DLE, STX, a, b, c, d, e, 5, check, DLE, ETX, ..] if is_whole(&piece[2..9]) => {
                self.front.restart(&[*a, *b, *c, *d, *e, 5, *check]);
                Some(11)
            }
            _ => None,
        }
    }

    // The same of any piece: it takes a run of bytes up to a DLE at once, and then the byte behind that DLE.
    #[inline(never)]
    fn take_by_runs(&mut self, piece: &[u8]) -> (usize, Option<Item<()>>)
        ensures stands { GoesOver (take result.0 piece.now) self.old self.new }
        ensures within { result.0 ≤ length piece.now }
        ensures progress { 0 < length piece.now → 0 < result.0 }
        ensures feeds { (text : List ℕ) → StandsFor self.old text
            → Feeds text piece.now result.0 (option_map (found_in self.new.front) result.1) }
    {
        let mut used = self.take_front(piece);
        loop {
            if used == piece.len() {
                return (used, None);
            }
            let item = self.take(piece[used]);
            used += 1;
            if item.is_some() {
                return (used, item);
            }
            used += self.take_to_dle(&piece[used..]);
        }
    }

    // An item with its DATA, which are the front without its two last bytes.
    fn with_data(&self, item: Item<()>) -> Item<&[u8]>
        ensures { shown result ≡ found_in self.now.front item }
    {
        match item {
            Item::Good(()) => {
                let body = self.front.as_slice();
                Item::Good(&body[..body.len().saturating_sub(2)])
            }
            Item::Bad => Item::Bad,
            Item::Ack => Item::Ack,
            Item::Nak => Item::Nak,
        }
    }

    // Takes what `take_to_dle` takes. Where the piece starts a frame outside of one, it takes that start too, and what comes
    // behind it.
    #[inline(always)]
    fn take_front(&mut self, piece: &[u8]) -> usize
        ensures within { result ≤ length piece.now }
        ensures passes { PassesOver (take result piece.now) self.old self.new }
        ensures stops { result < length piece.now → IsBehindDle self.new.state }
    {
        let State::Outside = self.state else {
            return self.take_to_dle(piece);
        };
        let Some(body) = behind_start(piece) else {
            return self.take_to_dle(piece);
        };
        self.start();
        2 + self.take_to_dle(body)
    }

    // Takes the bytes up to the first DLE and the DLE at once, where none was taken, and answers how many.
    #[inline(always)]
    fn take_to_dle(&mut self, piece: &[u8]) -> usize
        ensures within { result ≤ length piece.now }
        ensures passes { PassesOver (take result piece.now) self.old self.new }
        ensures stops { result < length piece.now → IsBehindDle self.new.state }
    {
        match self.state {
            State::Outside => {
                let count = dle_place(piece);
                if count == piece.len() {
                    return count;
                }
                self.state = State::OutsideDle;
                count + 1
            }
            State::Inside => {
                let count = self.front.take_run(piece);
                if count == piece.len() {
                    return count;
                }
                self.state = State::InsideDle;
                count + 1
            }
            State::OutsideDle | State::InsideDle => 0,
        }
    }

    // Takes a byte behind a DLE, and answers the item that ends with it. The DATA of a good one are the front of the body.
    fn take(&mut self, byte: u8) -> Option<Item<()>>
        requires { IsBehindDle self.old.state }
        ensures { Steps self.old.state self.old.front byte result self.new.state self.new.front }
    {
        if let State::InsideDle = self.state {
            self.take_inner_control(byte)
        } else {
            self.take_control(byte)
        }
    }

    // Takes a byte behind a DLE outside a frame.
    fn take_control(&mut self, byte: u8) -> Option<Item<()>>
        requires { self.old.state ≡ State.OutsideDle }
        ensures { Steps State.OutsideDle self.old.front byte result self.new.state self.new.front }
    {
        match byte {
            DLE => None,
            STX => {
                self.start();
                None
            }
            ACK => {
                self.state = State::Outside;
                Some(Item::Ack)
            }
            NAK => {
                self.state = State::Outside;
                Some(Item::Nak)
            }
            _ => {
                self.state = State::Outside;
                None
            }
        }
    }

    // Takes a byte behind a DLE in a frame.
    fn take_inner_control(&mut self, byte: u8) -> Option<Item<()>>
        ensures { Steps State.InsideDle self.old.front byte result self.new.state self.new.front }
    {
        match byte {
            DLE => {
                self.front.push(DLE);
                self.state = State::Inside;
                None
            }
            STX => {
                self.start();
                None
            }
            ETX => {
                self.state = State::Outside;
                Some(self.ended())
            }
            _ => {
                // The byte abandons the frame, and is used up with the DLE.
                self.state = State::Outside;
                None
            }
        }
    }

    // Starts a frame.
    fn start(&mut self)
        ensures state { self.new.state ≡ State.Inside }
        ensures front { self.new.front ≡ [] }
    {
        self.front.clear();
        self.state = State::Inside;
    }

    // The item of a frame whose body has this front.
    fn ended(&self) -> Item<()>
        ensures { found_in self.now.front result ≡ item_of self.now.front }
    {
        if self.front.is_good() {
            Item::Good(())
        } else {
            Item::Bad
        }
    }
}
