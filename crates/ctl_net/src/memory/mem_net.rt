//! A net in memory.

ghost use Rattle.std.specs.Prelude.{◌≡◌, ◌<◌, IfOk, IfSome};
ghost use Rattle.ctl_net.specs.MemAcceptor.{IsNewAcceptor};
ghost use Rattle.ctl_net.specs.MemPort.{IsNewPort};
ghost use Rattle.ctl_net.specs.MemNet.{unopened, AreNewAcceptors, AreNewPorts};
ghost use Rattle.ctl_net.specs.MemNet.{acceptor_answer, without_acceptor, after_acceptor};
ghost use Rattle.ctl_net.specs.MemNet.{port_answer, without_port, after_port};
ghost use Rattle.ctl_net.specs.MemNet.{after_close_acceptor, after_close_port};
ghost use Rattle.ctl_net.specs.MemNet.{sessions_for, shown_net};
ghost use Rattle.ctl_net.specs.declared.memory.closed_acceptor.ClosedAcceptor.{ClosedAcceptor};

use crate::memory::queue::take_front;
use crate::{Address, ClosedAcceptor, MemAcceptor, MemPort, Net, Opening};
use ctl_io::{CallCount, FaultCount};
use std::alloc::{AllocError, Global};
use std::marker::Model;

/// A net in memory. It hands out its acceptors and its ports in their order, and what is given back isn't handed out again.
#[derive(Debug, Drop)]
pub struct MemNet {
    acceptors: Vec<MemAcceptor>,
    ports: Vec<MemPort>,
    openings: Vec<Opening>,
    // So many objects may still be handed out.
    objects: usize,
    acceptors_out: usize,
    ports_out: usize,
    acceptors_back: Vec<ClosedAcceptor>,
    ports_back: Vec<MemPort>,
    calls: CallCount,
    close_faults: FaultCount,
}

impl Model for MemNet {
    ghost use Rattle.ctl_net.specs.MemNet.{NetState};
    ghost use Rattle.ctl_net.specs.MemNetInside.{net_state, NetHasRoom};

    ghost Value = { NetState };

    ghost view = { net_state };

    ghost invariant = { NetHasRoom };
}

impl MemNet {
    /// A net of these acceptors and ports, which are new. It hands out at most `objects` of them, and takes room now to
    /// tell so many openings and to take so many of each kind back. `failing` holds the numbers, from 0, of the openings
    /// that are refused, where those of acceptors and of ports are numbered together.
    pub fn new(
        alloc: Global,
        acceptors: Vec<MemAcceptor>,
        ports: Vec<MemPort>,
        objects: usize,
        failing: Vec<u64>,
    ) -> Result<MemNet, AllocError>
        requires new_acceptors { AreNewAcceptors acceptors.items }
        requires new_ports { AreNewPorts ports.items }
        ensures { IfOk result (λ net.
            net ≡ unopened acceptors.items ports.items objects failing.items) }
    {
        let openings = Vec::with_capacity(alloc, objects)?;
        let acceptors_back = Vec::with_capacity(alloc, objects)?;
        let ports_back = Vec::with_capacity(alloc, objects)?;
        Ok(MemNet {
            acceptors,
            ports,
            openings,
            objects,
            acceptors_out: 0,
            ports_out: 0,
            acceptors_back,
            ports_back,
            calls: CallCount::new(failing),
            close_faults: FaultCount::new(),
        })
    }

    /// Hands out the first acceptor that waits, with this opening and at most `sessions` sessions left. It refuses where the
    /// call's number is listed, and for want of objects or of an acceptor.
    pub fn lend_acceptor(&mut self, opening: Opening, sessions: u32) -> Option<MemAcceptor>
        ensures answer { result ≡ acceptor_answer self.old opening sessions }
        ensures after { self.new ≡ after_acceptor result opening self.old }
        ensures new { IfSome result IsNewAcceptor }
    {
        let lent = self.first_acceptor(opening, sessions);
        self.calls.count(lent.is_none());
        lent
    }

    /// Hands out the first port that waits, with this opening. It refuses where the call's number is listed, and for want of
    /// objects or of a port.
    pub fn lend_port(&mut self, opening: Opening) -> Option<MemPort>
        ensures answer { result ≡ port_answer self.old opening }
        ensures after { self.new ≡ after_port result opening self.old }
        ensures new { IfSome result IsNewPort }
    {
        let lent = self.first_port(opening);
        self.calls.count(lent.is_none());
        lent
    }

    /// Keeps an acceptor that this net handed out behind those that were given back before.
    pub fn take_back_acceptor(&mut self, closed: ClosedAcceptor)
        requires { 0 < self.old.acceptors_out }
        ensures { self.new ≡ after_close_acceptor closed self.old }
    {
        if closed.acceptor.next_faults() > 0 || closed.acceptor.done_faults() > 0 {
            self.close_faults.raise();
        }
        self.acceptors_out -= 1;
        self.acceptors_back.push_reserved(closed);
    }

    /// Keeps a port that this net handed out behind those that were given back before.
    pub fn take_back_port(&mut self, port: MemPort)
        requires { 0 < self.old.ports_out }
        ensures { self.new ≡ after_close_port port self.old }
    {
        if port.faults() > 0 {
            self.close_faults.raise();
        }
        self.ports_out -= 1;
        self.ports_back.push_reserved(port);
    }

    /// The openings that handed something out, in order.
    pub fn openings(&self) -> &[Opening]
        ensures { result.now ≡ self.now.openings }
    {
        &self.openings
    }

    /// The acceptors that were given back, in order.
    pub fn acceptors_back(&self) -> &[ClosedAcceptor]
        ensures { result.now ≡ self.now.acceptors_back }
    {
        &self.acceptors_back
    }

    /// The ports that were given back, in order.
    pub fn ports_back(&self) -> &[MemPort]
        ensures { result.now ≡ self.now.ports_back }
    {
        &self.ports_back
    }

    /// How often an opening was refused. The count stands still at its type's end.
    pub fn open_faults(&self) -> u64
        ensures { result ≡ self.now.calls.faults }
    {
        self.calls.faults()
    }

    /// How often an object with faults was given back. The count stands still at its type's end.
    pub fn close_faults(&self) -> u64
        ensures { result ≡ self.now.close_faults }
    {
        self.close_faults.count()
    }

    // Takes out the first acceptor, without counting the call.
    fn first_acceptor(&mut self, opening: Opening, sessions: u32) -> Option<MemAcceptor>
        ensures answer { result ≡ acceptor_answer self.old opening sessions }
        ensures after { self.new ≡ without_acceptor result opening self.old }
        ensures new { IfSome result IsNewAcceptor }
    {
        if self.calls.next_fails() || self.objects == 0 {
            return None;
        }
        match take_front(&mut self.acceptors) {
            Some(mut acceptor) => {
                acceptor.open(opening.copied(), sessions);
                self.openings.push_reserved(opening);
                self.objects -= 1;
                self.acceptors_out += 1;
                Some(acceptor)
            }
            None => None,
        }
    }

    // Takes out the first port, without counting the call.
    fn first_port(&mut self, opening: Opening) -> Option<MemPort>
        ensures answer { result ≡ port_answer self.old opening }
        ensures after { self.new ≡ without_port result opening self.old }
        ensures new { IfSome result IsNewPort }
    {
        if self.calls.next_fails() || self.objects == 0 {
            return None;
        }
        match take_front(&mut self.ports) {
            Some(mut port) => {
                port.open(opening.copied());
                self.openings.push_reserved(opening);
                self.objects -= 1;
                self.ports_out += 1;
                Some(port)
            }
            None => None,
        }
    }
}

impl Net for MemNet {
    type A = MemAcceptor;

    type P = MemPort;

    ghost shows = { shown_net };

    ghost sessions_for = { sessions_for };

    #[tactic(auto, using(crate::proofs::MemNetLemmas::as_asked))]
    fn acceptor(
        &mut self,
        panel: u32,
        address: &str,
        port: u16,
        sessions: u32,
        idle_ms: u32,
    ) -> Option<MemAcceptor> {
        let opening = Opening::Acceptor {
            panel,
            address: Address::of(address),
            port,
            sessions,
            idle_ms,
        };
        self.lend_acceptor(opening, sessions)
    }

    fn port(&mut self, address: &str) -> Option<MemPort> {
        self.lend_port(Opening::Display {
            address: Address::of(address),
        })
    }

    fn close_acceptor(&mut self, panel: u32, acceptor: MemAcceptor) {
        self.take_back_acceptor(ClosedAcceptor { panel, acceptor });
    }

    fn close_port(&mut self, port: MemPort) {
        self.take_back_port(port);
    }
}
