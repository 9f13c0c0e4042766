//! What a session asks of the plant.

ghost use Rattle.std.specs.Prelude.{◌≡◌, ◌-◌, ◌^◌, ◌<◌};
ghost use Rattle.plant_core.specs.declared.request.Request.TheVariants.{Told, Poll};

use super::Session;
use plant_core::Request;
use swp08_messages::Message;

impl Session<'_> {
    // What the last item sends to the plant.
    pub(super) fn telling(&self, message: Message) -> Request
        ensures { 0 < self.now.items → self.now.items < 2 ^ 62
            → result ≡ Told self.now.panel (self.now.items - 1) message }
    {
        Request::Told {
            panel: self.panel,
            item: self.items.wrapping_sub(1),
            message,
        }
    }

    // The next poll.
    pub(super) fn polling(&self) -> Request
        ensures { result ≡ Poll self.now.panel self.now.items self.now.counts.turns }
    {
        Request::Poll {
            panel: self.panel,
            at: self.items,
            turn: self.counts.turns,
        }
    }
}
