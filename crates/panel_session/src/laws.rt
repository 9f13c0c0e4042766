//! What holds of every session.

ghost use Rattle.panel_session.specs.Laws.{AwaitsSoFar, StandsSoFar, TurnsAreOne};
ghost use Rattle.panel_session.specs.Laws.{TurnsAreSent, TurnsFit};
ghost use Rattle.panel_session.specs.Laws.{AwaitsFits, StandsFits, FrontsOfText, TextsAreOne};

use history_lock::Machine;
use plant_core::{Answer, Request};

/// What a session stands for is what one may have done so far.
pub fn stands_so_far()
    ensures stands { StandsSoFar }
    ensures awaits { AwaitsSoFar }
{}

/// A piece is worked as one turn: behind a past and from a state of a machine, two turns of one piece are the same, and so
/// are the bytes that are sent in them.
pub fn one_turn<M: Machine<Request = Request, Answer = Answer>>()
    ensures { TurnsAreOne M.step M.Fits }
{}

/// The turns that are over fit a session's reads: their entries are made of these pieces, turn by turn. Where nothing was
/// done of the present turn, the whole text of the others was sent, or is once the session's outgoing bytes are.
pub fn turns_fit()
    ensures fit { TurnsFit }
    ensures text { TurnsAreSent }
{}

/// What a session has done so far begins a list of entries that fits its reads, the present piece as a whole among them.
pub fn so_far_fits()
    ensures stands { StandsFits }
    ensures awaits { AwaitsFits }
{}

/// With the same entries the text of a front of what was read is a front of the text of all of it, and there is one text.
pub fn texts_go_on()
    ensures front { FrontsOfText }
    ensures one { TextsAreOne }
{}
