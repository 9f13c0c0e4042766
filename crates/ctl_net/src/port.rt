//! Ports that display packets are sent to.

ghost use Rattle.std.specs.Prelude.{◌≡◌, ℕ, List, Option};
ghost use Rattle.ctl_io.specs.Faults.{count_after};
ghost use Rattle.ctl_net.specs.Port.{sent_after, send_failed};
ghost use Rattle.ctl_net.specs.declared.opening.Opening.{Opening};

/// What a send answers.
#[derive(Clone, Copy, Debug, PartialEq, Eq)]
pub enum Sent {
    /// The packet was sent. Whether it came isn't known.
    Done,
    /// The send failed, and the packet isn't among those that were sent.
    Failed,
}

/// A place outside that display packets are sent to, one by one. It can be moved to another thread.
pub trait DisplayPort: Send {
    /// The opening that made it, or none, if no net opened it.
    ghost opening: { Self → Option Opening };

    /// Which packets a port of this type takes, whatever was called before.
    ghost takes: { List ℕ → Type 0 };

    /// These are the packets that the port was sent, in order, as far as it shows any.
    ghost was_sent: { Self → List (List ℕ) → Type 0 };

    /// How often a send failed. Only the port's own sends raise it.
    ghost faults: { Self → ℕ };

    /// Sends a packet that the port takes.
    fn send(&mut self, packet: &[u8]) -> Sent
        requires { takes packet.now }
        ensures sent { (packets : List (List ℕ)) → was_sent self.old packets
            → was_sent self.new (sent_after result packet.now packets) }
        ensures opening { opening self.new ≡ opening self.old }
        ensures count { faults self.new ≡ count_after (send_failed result) (faults self.old) };

    /// Waits a little, and sends nothing.
    fn pause(&mut self)
        ensures sent { (packets : List (List ℕ)) → was_sent self.old packets
            → was_sent self.new packets }
        ensures opening { opening self.new ≡ opening self.old }
        ensures count { faults self.new ≡ faults self.old };
}
