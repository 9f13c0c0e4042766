//! The link of a panel of a drill.

ghost use Rattle.std.specs.Prelude.{◌≡◌, ◌<◌, ◌++◌, [], Some, IfOk, length, take};
ghost use Rattle.ctl_io.specs.Faults.{count_after};
ghost use Rattle.ctl_io.specs.Sink.{TakesWithin, took, write_failed};
ghost use Rattle.ctl_io.specs.Source.{AreNext};
ghost use Rattle.ctl_net.specs.Link.{given};
ghost use Rattle.ctl_net.specs.LinkEvents.{bytes_of};
ghost use Rattle.ctl_net.specs.MemLink.{new_link, input_answer, after_input};
ghost use Rattle.drill.specs.PanelLinkInside.{ArePieces, IsPanelLink};

use crate::tape::Tape;
use ctl_io::{Sink, Write};
use ctl_net::{Link, LinkEvent, LinkRead, MemLink};
use std::alloc::{AllocError, Global};
use std::marker::Model;

// A link in memory that gives the pieces of a panel's bytes, and writes to a tape.
#[derive(Drop)]
pub(crate) struct PanelLink {
    // Nothing is written to it.
    input: MemLink,
    output: Tape,
}

impl Model for PanelLink {
    ghost use Rattle.ctl_net.specs.MemLink.{LinkState};
    ghost use Rattle.drill.specs.PanelLinkInside.{GivesPieces};

    ghost Value = { LinkState };

    ghost view = { λ link. record { input = link.input.input; output = link.output } };

    ghost invariant = { λ link. GivesPieces link.input.input };
}

impl PanelLink {
    // A link over which these pieces come, with room for so many written bytes, which it takes now.
    pub(crate) fn new(
        alloc: Global,
        pieces: Vec<LinkEvent>,
        room: usize,
    ) -> Result<PanelLink, AllocError>
        requires { ArePieces pieces.items }
        ensures { IfOk result (λ link. link ≡ new_link pieces.items room [] []) }
    {
        let none = Vec::new(alloc);
        Ok(PanelLink {
            input: MemLink::new(alloc, pieces, 0, Vec::new(alloc), none)?,
            output: Tape::new(alloc, room)?,
        })
    }

    // Gives the next piece, as much of it as there is room for.
    pub(crate) fn give(&mut self, into: &mut [u8]) -> LinkRead
        requires { 0 < length into.old }
        ensures answer { result ≡ input_answer self.old.input (length into.old) }
        ensures after { self.new.input ≡
            after_input self.old.input (length into.old) into.new }
        ensures output { self.new.output ≡ self.old.output }
        ensures bytes { AreNext (given result) into.new (Some (bytes_of self.old.input.events)) }
    {
        self.input.give(into)
    }

    // Appends a front of the bytes, all of them where there is room, or fails where there is none.
    pub(crate) fn take(&mut self, bytes: &[u8]) -> Write
        requires { 0 < length bytes.now }
        ensures within { TakesWithin result (length bytes.now) }
        ensures written { self.new.output.written
            ≡ self.old.output.written ++ take (took result) bytes.now }
        ensures count { self.new.output.calls.faults
            ≡ count_after (write_failed result) self.old.output.calls.faults }
        ensures room { self.new.output.room ≡ self.old.output.room }
        ensures input { self.new.input ≡ self.old.input }
    {
        self.output.take(bytes)
    }

    // What is so of such a link at any time, for clauses: it does nothing.
    pub(crate) fn keeps(&self)
        ensures { IsPanelLink self.now }
    {
        let _ = &self.input;
        self.output.keeps();
    }
}

impl Sink for PanelLink {
    ghost use Rattle.std.specs.Prelude.{Some, [], ◌∷◌};
    ghost use Rattle.ctl_net.specs.MemLink.{read_half_of};

    ghost written = { λ link. Some link.output.written };

    ghost faults = { λ link. link.output.calls.faults };

    // It has no file. Its room is what it is known by.
    ghost name = { λ link. Some (link.output.room ∷ []) };

    ghost read_half = { λ link. read_half_of link.input };

    fn write(&mut self, bytes: &[u8]) -> Write {
        self.take(bytes)
    }
}

impl Link for PanelLink {
    fn read(&mut self, into: &mut [u8]) -> LinkRead {
        self.give(into)
    }
}
