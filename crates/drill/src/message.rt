//! The messages of a panel, made of its draws.

ghost use Rattle.std.specs.Prelude.{◌≡◌, ◌≤◌, ◌<◌, ◌+◌};
ghost use Rattle.swp08_messages.specs.Text.{InRange};
ghost use Rattle.drill.specs.Draws.{next_seed};
ghost use Rattle.drill.specs.Messages.{message_from, of_kind, dest_drawn};

use crate::draws::draw;
use swp08_messages::{Message, Point};

// The next message of a panel, of three draws.
pub(crate) fn next_message(seed: &mut u64, panel: u32) -> Message
    requires { panel < 16 }
    ensures seed { seed.new ≡ next_seed (next_seed (next_seed seed.old)) }
    ensures message { result ≡ message_from panel seed.old }
    ensures in_range { InRange result }
{
    let kind = draw(seed) % 16;
    let at = dest_drawn(draw(seed));
    let drawn = draw(seed);
    let source = (drawn % 256) as u16;
    let salvo = (drawn / 256 % 8) as u8;
    of_kind(kind, at, source, salvo, panel as u16 + 1)
}

// The destination that a draw says.
fn dest_drawn(drawn: u32) -> Point
    ensures { result ≡ dest_drawn drawn }
{
    Point {
        matrix: (drawn / 256 % 2) as u8,
        level: 0,
        dest: (drawn % 256) as u16,
    }
}

// The message of a kind, 0 to 15.
fn of_kind(kind: u32, at: Point, source: u16, salvo: u8, device: u16) -> Message
    requires kind { kind < 16 }
    requires matrix { at.matrix < 2 }
    requires level { at.level ≡ 0 }
    requires dest { at.dest < 256 }
    requires source { source < 256 }
    requires salvo { salvo < 8 }
    requires device { device ≤ 16 }
    ensures message { result ≡ of_kind kind at source salvo device }
    ensures in_range { InRange result }
{
    let some = Some(source);
    match kind {
        0..=9 => Message::Connect { at, source: some },
        10 => Message::Interrogate { at },
        11 => Message::ProtectConnect { at, device },
        12 => Message::ProtectDisconnect { at, device },
        13 => Message::Store {
            at,
            source: some,
            salvo,
        },
        _ => Message::Go {
            clear: kind == 15,
            salvo,
        },
    }
}
