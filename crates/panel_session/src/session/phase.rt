//! What a session does next, and when a turn has polled enough.

ghost use Rattle.panel_session.specs.PolledInside.{HasPolled};

use crate::sending::name_page::NamePage;
use plant_core::Answer;
use swp08_messages::Message;

// The most polls of a turn.
const MOST_POLLS: u32 = 32;

// What a session does next, once nothing is to be sent.
#[derive(Clone, Copy)]
pub(crate) enum Phase {
    // It reads the piece.
    Read,
    // It sends the pages of names from this one on, for which the last item asks.
    Name(NamePage),
    // The last item sends the plant this message.
    Tell(Message),
    // It polls for a notice.
    Poll,
    // The turn is over.
    End,
}

// What comes behind the poll of this number that was answered so.
pub(crate) fn phase_behind(answers: &[Answer], polls: u32) -> Phase
    ensures { HasPolled answers.now polls result }
{
    if answers.is_empty() || polls == MOST_POLLS {
        Phase::End
    } else {
        Phase::Poll
    }
}
