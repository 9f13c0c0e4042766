//! Nets, which open acceptors and display ports and take them back.

ghost use Rattle.std.specs.Prelude.{◌≡◌, ◌<◌, ◌≤◌, ℕ, IfSome, length};
ghost use Rattle.ctl_io.specs.Custody.{returned};
ghost use Rattle.ctl_io.specs.Faults.{count_after, is_faulty};
ghost use Rattle.ctl_net.specs.Net.{NetData, acceptor_end, port_end};
ghost use Rattle.ctl_net.specs.Net.{IsFreshAcceptor, IsFreshPort, TakesAll};
ghost use Rattle.ctl_net.specs.Net.{is_refused, opened, opening_lent, ends_faulty};
ghost use Rattle.ctl_net.specs.declared.opening.Opening.{Opening};

use crate::{Acceptor, DisplayPort};

/// Opens the acceptors of panels and the ports of displays. What it hands out is given back to it.
pub trait Net {
    type A: Acceptor;

    type P: DisplayPort;

    /// What it shows: its openings, its acceptors and its ports that are out and that came back, and its counts of openings
    /// that were refused and of objects that came back with faults.
    ghost shows: { Self → NetData Self.P };

    /// How many sessions the next acceptor has that is opened for so many.
    ghost sessions_for: { Self → ℕ → ℕ };

    /// Opens the acceptor of a panel's sessions at an address, of at most 64 bytes, and a port. It hands out at most
    /// `sessions` links, of which a read waits at most `idle_ms` milliseconds. It is new, and shows this opening. None is a
    /// refusal.
    fn acceptor(
        &mut self,
        panel: u32,
        address: &str,
        port: u16,
        sessions: u32,
        idle_ms: u32,
    ) -> Option<Self::A>
        requires { length address.now ≤ 64 }
        ensures new { IfSome result (λ acceptor. IsFreshAcceptor (Self.A.shows acceptor).links
            (Self.A.shows acceptor).next_faults (Self.A.shows acceptor).done_faults) }
        ensures opening { IfSome result (λ acceptor. (Self.A.shows acceptor).opening
            ≡ Some (Opening.Acceptor panel address.now port sessions idle_ms)) }
        ensures sessions { IfSome result
            (λ acceptor. (Self.A.shows acceptor).sessions ≤ sessions) }
        ensures asked { IfSome result (λ acceptor.
            (Self.A.shows acceptor).sessions ≡ sessions_for self.old sessions) }
        ensures told { (shows self.new).openings ≡ opened result
            (Opening.Acceptor panel address.now port sessions idle_ms) (shows self.old).openings }
        ensures lent { (shows self.new).acceptors
            ≡ opening_lent result (shows self.old).acceptors }
        ensures ports { (shows self.new).ports ≡ (shows self.old).ports }
        ensures count { (shows self.new).open_faults
            ≡ count_after (is_refused result) (shows self.old).open_faults }
        ensures close_count { (shows self.new).close_faults ≡ (shows self.old).close_faults };

    /// Opens the display port to an address, of at most 64 bytes. It is new, shows this opening, and takes every packet that
    /// isn't empty. None is a refusal.
    fn port(&mut self, address: &str) -> Option<Self::P>
        requires { length address.now ≤ 64 }
        ensures new { IfSome result
            (λ port. IsFreshPort (Self.P.was_sent port) (Self.P.faults port)) }
        ensures opening { IfSome result
            (λ port. Self.P.opening port ≡ Some (Opening.Display address.now)) }
        ensures takes { TakesAll Self.P.takes }
        ensures told { (shows self.new).openings
            ≡ opened result (Opening.Display address.now) (shows self.old).openings }
        ensures lent { (shows self.new).ports ≡ opening_lent result (shows self.old).ports }
        ensures acceptors { (shows self.new).acceptors ≡ (shows self.old).acceptors }
        ensures count { (shows self.new).open_faults
            ≡ count_after (is_refused result) (shows self.old).open_faults }
        ensures close_count { (shows self.new).close_faults ≡ (shows self.old).close_faults };

    /// Takes back the acceptor of a panel that this net handed out.
    fn close_acceptor(&mut self, panel: u32, acceptor: Self::A)
        requires { 0 < (shows self.old).acceptors.out }
        ensures returned { (shows self.new).acceptors ≡ returned (acceptor_end panel
            (Self.A.shows acceptor)) (shows self.old).acceptors }
        ensures told { (shows self.new).openings ≡ (shows self.old).openings }
        ensures ports { (shows self.new).ports ≡ (shows self.old).ports }
        ensures count { (shows self.new).close_faults ≡ count_after
            (ends_faulty (Self.A.shows acceptor).next_faults (Self.A.shows acceptor).done_faults)
            (shows self.old).close_faults }
        ensures open_count { (shows self.new).open_faults ≡ (shows self.old).open_faults };

    /// Takes back a display port that this net handed out.
    fn close_port(&mut self, port: Self::P)
        requires { 0 < (shows self.old).ports.out }
        ensures returned { (shows self.new).ports
            ≡ returned (port_end (Self.P.opening port) port) (shows self.old).ports }
        ensures told { (shows self.new).openings ≡ (shows self.old).openings }
        ensures acceptors { (shows self.new).acceptors ≡ (shows self.old).acceptors }
        ensures count { (shows self.new).close_faults
            ≡ count_after (is_faulty (Self.P.faults port)) (shows self.old).close_faults }
        ensures open_count { (shows self.new).open_faults ≡ (shows self.old).open_faults };
}
