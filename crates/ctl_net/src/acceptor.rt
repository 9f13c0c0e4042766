//! Acceptors, which hand out the links of a panel's sessions one after another.

ghost use Rattle.std.specs.Prelude.{◌≡◌, ◌^◌, ◌<◌, ◌≤◌};
ghost use Rattle.ctl_io.specs.Custody.{returned};
ghost use Rattle.ctl_io.specs.Faults.{count_after};
ghost use Rattle.ctl_net.specs.Acceptor.{AcceptorData, link_end, is_faulty_link};
ghost use Rattle.ctl_net.specs.Acceptor.{IfOne, IsFresh, Uses, link_lent, next_failed};

use crate::Link;

/// What an acceptor answers where the next link is asked for.
pub enum Next<L> {
    One(L),
    /// No session is left.
    NoMore,
    Failed,
}

/// Hands out the links of a panel's sessions, one after another. What it hands out is given back to it. It can be moved
/// to another thread.
pub trait Acceptor: Send {
    type L: Link;

    /// What it shows: the opening that made it, or none, if no net opened it; how many sessions are left, at most 2^63; the
    /// links that were handed out and taken back; how often the next link couldn't be handed out, and how often a link with
    /// faults was given back.
    ghost shows: { Self → AcceptorData };

    /// Hands out the link of the next session, which is new.
    fn next(&mut self) -> Next<Self::L>
        ensures new { IfOne result (λ link.
            IsFresh (link_end (Self.L.written link) (Self.L.faults link) (Self.L.read_half link))) }
        ensures sessions { Uses result (shows self.old).sessions (shows self.new).sessions }
        ensures bound { (shows self.old).sessions ≤ 2 ^ 63 }
        ensures opening { (shows self.new).opening ≡ (shows self.old).opening }
        ensures lent { (shows self.new).links ≡ link_lent result (shows self.old).links }
        ensures count { (shows self.new).next_faults
            ≡ count_after (next_failed result) (shows self.old).next_faults }
        ensures done_count { (shows self.new).done_faults ≡ (shows self.old).done_faults };

    /// Takes back a link that this acceptor handed out.
    fn done(&mut self, link: Self::L)
        requires { 0 < (shows self.old).links.out }
        ensures returned { (shows self.new).links ≡ returned
            (link_end (Self.L.written link) (Self.L.faults link) (Self.L.read_half link))
            (shows self.old).links }
        ensures opening { (shows self.new).opening ≡ (shows self.old).opening }
        ensures sessions { (shows self.new).sessions ≡ (shows self.old).sessions }
        ensures count { (shows self.new).done_faults ≡ count_after
            (is_faulty_link (Self.L.faults link) (Self.L.read_half link))
            (shows self.old).done_faults }
        ensures next_count { (shows self.new).next_faults ≡ (shows self.old).next_faults };
}
