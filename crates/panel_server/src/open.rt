//! What serving a plant opens.

ghost use Rattle.std.specs.Prelude.{◌≡◌, ◌^◌, ◌<◌, ◌≤◌, All, [], length, vec_capacity};
ghost use Rattle.std.specs.Prelude.{IfSome, IfNone, OnSome};
ghost use Rattle.std.specs.Bool.{OnFalse, OnTrue};
ghost use Rattle.ctl_net.specs.Net.{IsFreshAcceptor, IsFreshPort, TakesAll};
ghost use Rattle.ctl_net.specs.Net.{acceptor_end, port_end};
ghost use Rattle.ctl_net.specs.declared.opening.Opening.{Opening};
ghost use Rattle.plant_config.specs.Plant.{PlantData};
ghost use Rattle.panel_server.specs.PlantServed.{RefusesOpening};
ghost use Rattle.panel_server.specs.ServeInside.{AreOwn, ComeBackFresh, IsFreshFor};
ghost use Rattle.panel_server.specs.ServeInside.{WasRefused};
ghost use Rattle.panel_server.specs.ServeInside.{opened_acceptors, with_acceptor, with_port};
ghost use Rattle.panel_server.specs.ServeInside.{with_closed, with_closed_port, with_refusal};

use ctl_net::Net;
use plant_config::Plant;
use plant_file::Server;

// Opens the acceptors of a plant's panels, in their order, and then the port to its displays. None is a refusal: then what was
// opened before is given back.
pub(crate) fn open_all<N: Net>(
    net: &mut N,
    plant: &Plant,
    acceptors: &mut Vec<N::A>,
) -> Option<N::P>
    requires empty { acceptors.old.items ≡ [] }
    requires places { length plant.now.panels ≤ vec_capacity acceptors.old }
    ensures opened { OnSome result (N.shows net.new
        ≡ with_port plant.now.server (opened_acceptors plant.now (length plant.now.panels)
        (N.shows net.old))) }
    ensures count { OnSome result (length acceptors.new.items ≡ length plant.now.panels) }
    ensures fresh { OnSome result (
        All (IsFreshFor N.A.shows plant.now.server) acceptors.new.items) }
    ensures own { OnSome result (AreOwn N.A.shows plant.now acceptors.new.items) }
    ensures new { IfSome result (λ port. IsFreshPort (N.P.was_sent port) (N.P.faults port)) }
    ensures port { IfSome result (λ port.
        N.P.opening port ≡ Some (Opening.Display plant.now.server.display)) }
    ensures takes { OnSome result (TakesAll N.P.takes) }
    ensures refused { IfNone result (RefusesOpening plant.now
        (N.shows net.old) (N.shows net.new)) }
    ensures emptied { IfNone result (acceptors.new.items ≡ []) }
{
    if !open_acceptors(net, plant, acceptors) {
        close_acceptors(net, acceptors);
        return None;
    }
    match open_port(net, plant.server()) {
        Some(port) => Some(port),
        None => {
            close_acceptors(net, acceptors);
            None
        }
    }
}

// Opens the acceptors alone. False where one was refused: then no further one was asked for.
fn open_acceptors<N: Net>(net: &mut N, plant: &Plant, acceptors: &mut Vec<N::A>) -> bool
    requires empty { acceptors.old.items ≡ [] }
    requires places { length plant.now.panels ≤ vec_capacity acceptors.old }
    ensures all { OnTrue result (N.shows net.new
        ≡ opened_acceptors plant.now (length acceptors.new.items) (N.shows net.old)) }
    ensures count { OnTrue result (length acceptors.new.items ≡ length plant.now.panels) }
    ensures some { OnFalse result (WasRefused plant.now (length acceptors.new.items)
        (N.shows net.old) (N.shows net.new)) }
    ensures fewer { OnFalse result (length acceptors.new.items < length plant.now.panels) }
    ensures few { length acceptors.new.items < 2 ^ 32 }
    ensures fresh { All (IsFreshFor N.A.shows plant.now.server) acceptors.new.items }
    ensures own { AreOwn N.A.shows plant.now acceptors.new.items }
{
    let server = plant.server();
    for (number, panel) in plant.panels().iter().enumerate() {
        match open_acceptor(net, server, number as u32, panel.port) {
            Some(acceptor) => acceptors.push_reserved(acceptor),
            None => return false,
        }
    }
    true
}

// Opens the acceptor of the panel of this number.
fn open_acceptor<N: Net>(net: &mut N, server: &Server, number: u32, port: u16) -> Option<N::A>
    requires { length server.now.listen ≤ 64 }
    ensures opened { OnSome result (N.shows net.new
        ≡ with_acceptor server.now number port (N.shows net.old)) }
    ensures refused { IfNone result (N.shows net.new ≡ with_refusal (N.shows net.old)) }
    ensures fresh { IfSome result (IsFreshFor N.A.shows server.now) }
    ensures own { IfSome result (λ acceptor. (N.A.shows acceptor).opening
        ≡ Some (Opening.Acceptor number server.now.listen port server.now.sessions
        server.now.idle_ms)) }
{
    let address = server.listen.as_str();
    net.acceptor(number, address, port, server.sessions, server.idle_ms)
}

// Opens the port to the displays.
fn open_port<N: Net>(net: &mut N, server: &Server) -> Option<N::P>
    requires { length server.now.display ≤ 64 }
    ensures opened { OnSome result (N.shows net.new ≡ with_port server.now (N.shows net.old)) }
    ensures refused { IfNone result (N.shows net.new ≡ with_refusal (N.shows net.old)) }
    ensures new { IfSome result (λ port. IsFreshPort (N.P.was_sent port) (N.P.faults port)) }
    ensures own { IfSome result (λ port.
        N.P.opening port ≡ Some (Opening.Display server.now.display)) }
    ensures takes { TakesAll N.P.takes }
{
    net.port(server.display.as_str())
}

// Gives back the acceptor of the panel of this number.
pub(crate) fn close_acceptor<N: Net>(net: &mut N, number: u32, acceptor: N::A)
    requires { 0 < (N.shows net.old).acceptors.out }
    ensures { N.shows net.new
        ≡ with_closed (acceptor_end number (N.A.shows acceptor)) (N.shows net.old) }
{
    net.close_acceptor(number, acceptor);
}

// Gives back the port to the displays.
pub(crate) fn close_port<N: Net>(net: &mut N, port: N::P)
    requires { 0 < (N.shows net.old).ports.out }
    ensures { N.shows net.new
        ≡ with_closed_port N.P.faults (port_end (N.P.opening port) port) (N.shows net.old) }
{
    net.close_port(port);
}

// Gives acceptors back that nothing was asked of, the last one first. They are those of the first panels.
fn close_acceptors<N: Net>(net: &mut N, acceptors: &mut Vec<N::A>)
    requires out { length acceptors.old.items ≤ (N.shows net.old).acceptors.out }
    requires few { length acceptors.old.items < 2 ^ 32 }
    requires fresh { All (λ acceptor. IsFreshAcceptor (N.A.shows acceptor).links
        (N.A.shows acceptor).next_faults (N.A.shows acceptor).done_faults) acceptors.old.items }
    ensures emptied { acceptors.new.items ≡ [] }
    ensures back { (plant : PlantData) → AreOwn N.A.shows plant acceptors.old.items
        → ComeBackFresh plant (length acceptors.old.items) (length acceptors.old.items)
        (N.shows net.old) (N.shows net.new) }
{
    while let Some(acceptor) = acceptors.pop() {
        close_acceptor(net, acceptors.len() as u32, acceptor);
    }
}
