//! What a drill came to, in lines.

ghost use Rattle.std.specs.Prelude.{◌≡◌, IfOk, string_bytes};
ghost use Rattle.command_drill.specs.Drill.{drill_lines};

use drill::Drilled;
use std::alloc::{AllocError, Global};

// The lines on a drill that was confirmed.
pub(crate) fn drill_lines(
    alloc: Global,
    panels: u32,
    drilled: &Drilled,
) -> Result<String, AllocError>
    ensures { IfOk result (λ text. string_bytes text ≡ drill_lines panels
        drilled.now.messages drilled.now.acks drilled.now.naks drilled.now.sessions) }
{
    let (messages, sessions) = (drilled.messages, drilled.sessions);
    let (acks, naks) = (drilled.acks, drilled.naks);
    format!(in alloc;
        "panels {panels}\nmessages {messages}\nacks {acks}\nnaks {naks}\nsessions {sessions}\nhistory confirmed\n"
    )
}
