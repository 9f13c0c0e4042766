//! The bytes that a panel sends.

ghost use Rattle.std.specs.Prelude.{◌≡◌, ◌≤◌, ◌<◌, IfOk};
ghost use Rattle.drill.specs.Stream.{stream};

use crate::draws::first_seed;
use crate::frames::{MOST_FRAME, send};
use crate::message::next_message;
use std::alloc::{AllocError, Global};
use swp08_messages::Message;

/// The bytes that a panel, 0 to 15, sends in the drill of this number: so many messages, up to 200,000.
pub fn stream(alloc: Global, number: u64, panel: u32, count: u32) -> Result<Vec<u8>, AllocError>
    requires panel { panel < 16 }
    requires count { count ≤ 200000 }
    ensures { IfOk result (λ bytes. bytes.items ≡ stream number panel count) }
{
    let mut bytes = Vec::with_capacity(alloc, count as usize * MOST_FRAME)?;
    let mut data = Vec::with_capacity(alloc, Message::MAX_LEN)?;
    let mut seed = first_seed(number, panel);
    for at in 0..count {
        let message = next_message(&mut seed, panel);
        send(at, &message, &mut data, &mut bytes);
    }
    Ok(bytes)
}
