//! What the workers have done, added up.

ghost use Rattle.std.specs.Prelude.{◌≡◌, ◌+◌, ◌*◌, ◌^◌, ◌<◌, ◌≤◌, All, length, map};
ghost use Rattle.panel_server.specs.PlantServed.{lost_at};
ghost use Rattle.panel_server.specs.ServeInside.{AreFew, CountsFew, IsFewDone};
ghost use Rattle.panel_server.specs.ServeInside.{no_sums, sums_from, sums_answer};
ghost use Rattle.panel_server.specs.Workers.{worker_shows};

use crate::displays::DriverEnd;
use crate::panel::PanelDone;
use crate::plant::{PlantDone, ServeFault};
use crate::worker::Worker;
use ctl_io::Sink;
use ctl_net::{Acceptor, DisplayPort};
use history_lock::Closed;
use plant_core::PlantState;

// The sums of what workers have done, and why the worker of the displays ended.
#[derive(Clone, Copy)]
pub(crate) struct Sums {
    pub(crate) sessions: u64,
    pub(crate) limits: u64,
    // Those of the panels.
    pub(crate) net_faults: u64,
    pub(crate) trace_faults: u64,
    pub(crate) failed_trace: Option<u32>,
    pub(crate) end: DriverEnd,
}

impl Sums {
    ghost use Rattle.panel_server.specs.ServeInside.{with_end, with_failure, with_panel};
    ghost use Rattle.panel_server.specs.ServeInside.{with_worker};

    // Adds what a worker has done, whose trace stands at this place.
    fn add_worker<A: Acceptor, P: DisplayPort, K: Sink>(
        &mut self,
        place: u32,
        worker: &Worker<'_, A, P, K>,
    )
        requires place { place < 2 ^ 16 }
        requires few { AreFew place self.old }
        requires done { CountsFew (worker_shows A.shows P.opening K.name K.written K.faults
            worker.now) }
        ensures { self.new ≡ with_worker place (worker_shows A.shows P.opening K.name K.written
            K.faults worker.now) self.old }
    {
        match worker {
            Worker::Panel(panel) => self.add_panel(place, &panel.done),
            Worker::Displays(displays) => self.add_end(place, displays.end),
        }
    }

    // Adds what the worker of a panel has done, whose trace stands at this place.
    fn add_panel(&mut self, place: u32, done: &PanelDone)
        requires place { place < 2 ^ 16 }
        requires few { AreFew place self.old }
        requires done { IsFewDone done.now }
        ensures { self.new ≡ with_panel place done.now self.old }
    {
        self.sessions += done.sessions;
        self.limits += done.limits;
        self.net_faults += done.link_faults;
        if done.refused {
            self.net_faults += 1;
        }
        self.add_trace(place, done.trace_failed);
    }

    // Adds why the worker of the displays ended, whose trace stands at this place.
    fn add_end(&mut self, place: u32, end: DriverEnd)
        requires few { AreFew place self.old }
        ensures { self.new ≡ with_end place end self.old }
    {
        if end == DriverEnd::Full {
            self.limits += 1;
        }
        self.end = end;
        self.add_trace(place, end == DriverEnd::TraceFault);
    }

    // What the answer says of the workers, once the lock is closed.
    pub(crate) fn answer(&self, closed: Closed<PlantState>) -> Result<PlantDone, ServeFault>
        requires few { AreFew (2 ^ 16) self.now }
        requires lost { lost_at self.now.end ≤ 2 ^ 62 }
        ensures { result ≡ sums_answer self.now closed.entries closed.past }
    {
        let Closed {
            machine: _,
            entries,
            past,
        } = closed;
        let lost = match self.end {
            DriverEnd::Finished { sent: _, failed } => failed,
            DriverEnd::TraceFault | DriverEnd::Full => 0,
            DriverEnd::NoMemory => return Err(ServeFault::NoMemory),
        };
        Ok(PlantDone {
            sessions: self.sessions,
            entries,
            limits: self.limits,
            net_faults: self.net_faults + lost,
            trace_faults: self.trace_faults,
            failed_trace: self.failed_trace,
            past,
        })
    }

    // Adds a trace, of which a write failed or none did.
    fn add_trace(&mut self, place: u32, failed: bool)
        requires few { self.old.trace_faults ≤ place }
        ensures { self.new ≡ with_failure place failed self.old }
    {
        if failed {
            self.trace_faults += 1;
            self.failed_trace = self.failed_trace.or(Some(place));
        }
    }
}

// Adds up what all workers have done.
pub(crate) fn add_up<A: Acceptor, P: DisplayPort, K: Sink>(workers: &[Worker<'_, A, P, K>]) -> Sums
    requires few { length workers.now ≤ 2 ^ 16 }
    requires done { All (λ worker. CountsFew (worker_shows A.shows P.opening K.name K.written
        K.faults worker)) workers.now }
    ensures sums { result ≡ sums_from 0 (map (worker_shows A.shows P.opening K.name K.written
        K.faults) workers.now) no_sums }
    ensures few { AreFew (length workers.now) result }
{
    let mut sums = Sums {
        sessions: 0,
        limits: 0,
        net_faults: 0,
        trace_faults: 0,
        failed_trace: None,
        end: DriverEnd::NoMemory,
    };
    for (place, worker) in workers.iter().enumerate() {
        sums.add_worker(place as u32, worker);
    }
    sums
}
