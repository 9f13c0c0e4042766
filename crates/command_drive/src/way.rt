//! One way of the line between the driver and the frame.

ghost use Rattle.std.specs.Prelude.{◌≡◌, ℕ, suc, ◌<◌, ◌≤◌, List, [], IfOk, Some};
ghost use Rattle.std.specs.Option.{option_map, option_to_list};
ghost use Rattle.dle_framing.specs.declared.item.Item.TheVariants.{Good};
ghost use Rattle.dle_framing.specs.Feeding.{shown};
ghost use Rattle.swp08_messages.specs.Text.{InRange, text};
ghost use Rattle.swp08_messages.specs.declared.message.Message.{Message};
ghost use Rattle.command_drive.specs.Drive.{put_one};
ghost use Rattle.command_drive.specs.DriveInside.{Carries, HasRoom};

use dle_framing::{Framer, Item, MAX_FRAME, encode_frame, frame_room};
use std::alloc::{AllocError, Global};
use swp08_messages::{Message, one_message, text_bytes};

/// One way of the line: a message on it is the bytes of its frame, which a framer reads at the end of the way. Every so
/// many-th message is lost as it is put.
#[derive(Drop)]
pub(crate) struct Way {
    every: u32,
    // How many messages were put, lost ones too.
    count: u32,
    bytes: Vec<u8>,
    // The DATA of the message that is put.
    data: Vec<u8>,
    framer: Framer,
}

impl Way {
    // A way on which nothing was put.
    pub(crate) fn new(alloc: Global, every: u32) -> Result<Way, AllocError>
        requires { 1 ≤ every }
        ensures empty { IfOk result (λ way. Carries way every 0 []) }
        ensures room { IfOk result HasRoom }
    {
        let bytes = Vec::with_capacity(alloc, MAX_FRAME)?;
        let data = Vec::with_capacity(alloc, Message::MAX_LEN)?;
        Ok(Way {
            every,
            count: 0,
            bytes,
            data,
            framer: Framer::new(),
        })
    }

    // How many messages were put, lost ones too.
    pub(crate) fn count(&self) -> u32
        ensures { result ≡ self.now.count }
    {
        self.count
    }

    // Puts a message on the way, or loses it.
    pub(crate) fn put(&mut self, message: &Message)
        requires in_range { InRange message.now }
        requires few { self.old.count < 100000 }
        requires room { HasRoom self.old }
        requires empty { self.old.bytes.items ≡ [] }
        ensures put { (every count : ℕ) → Carries self.old every count []
            → Carries self.new every (suc count) (put_one every (suc count) [] message.now) }
        ensures room { HasRoom self.new }
    {
        self.count += 1;
        if self.count % self.every == 0 {
            return;
        }
        text_bytes();
        frame_room();
        self.data.clear();
        message.write(&mut self.data);
        encode_frame(&self.data, &mut self.bytes);
    }

    // The message at the end of the way, which is on it no longer.
    pub(crate) fn take(&mut self) -> Option<Message>
        ensures taken { (every count : ℕ) (messages : List Message)
            → Carries self.old every count messages → option_to_list result ≡ messages }
        ensures empty { (every count : ℕ) (messages : List Message)
            → Carries self.old every count messages → Carries self.new every count [] }
        ensures room { HasRoom self.old → HasRoom self.new }
    {
        if self.bytes.as_slice().is_empty() {
            return None;
        }
        let message = message_of(self.framer.feed(&self.bytes).1);
        // Nothing of these bytes is left on the way, nor in the framer.
        self.bytes.clear();
        self.framer.reset();
        message
    }
}

// The message that an item's DATA spell.
fn message_of(item: Option<Item<&[u8]>>) -> Option<Message>
    ensures { (message : Message) → InRange message
        → option_map shown item.entry ≡ Some (Good (text message)) → result ≡ Some message }
{
    one_message();
    match item {
        Some(Item::Good(data)) => Message::read(data).ok(),
        _ => None,
    }
}
