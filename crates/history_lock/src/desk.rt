//! The machine in the slot.

ghost use Rattle.std.specs.Prelude.{◌≡◌, ◌≤◌, []};
ghost use Rattle.history_lock.specs.Plays.{IsAsked};

use crate::machine::Machine;
use crate::out_box::OutBox;
use crate::view::Desk;
use seen_value::Seen;

/// Works a request.
pub fn work<M: Machine>(
    desk: &mut Desk<M, M::Request>,
    request: &M::Request,
    out: &mut OutBox<M::Answer>,
)
    requires fits { M.Fits desk.old.machine request.now }
    requires empty { out.old.items ≡ [] }
    requires places { M.room desk.old.machine ≤ out.old.places }
    ensures machine { desk.new.machine ≡ (M.step desk.old.machine request.now).state }
    ensures asked { IsAsked desk.new request.now }
    ensures answers { out.new.items ≡ (M.step desk.old.machine request.now).answers }
    ensures places { out.new.places ≡ out.old.places }
    ensures room { M.room desk.new.machine ≡ M.room desk.old.machine }
    ensures goes_on_fitting { (other : M.Request) → M.Fits desk.old.machine other
        → M.Fits desk.new.machine other }
{
    desk.machine.step(request, out);
    desk.asked = Some(Seen::of(request));
}
