//! The adapter over a listener.

ghost use Rattle.std.specs.Prelude.{◌≡◌};

use crate::{Acceptor, Next, Opening, TcpLink};
use ctl_io::{FaultCount, call_again};
use std::io::{self, ErrorKind};
use std::mem::replace;
use std::net::{OpenListener, OpenStream};
use std::time::Duration;

/// An acceptor over a listener, for so many sessions. It keeps nothing of what is given back.
#[derive(Drop)]
pub struct TcpAcceptor<T> {
    // The opening that made it, if a net opened it.
    opening: Option<Opening>,
    listener: T,
    sessions: u32,
    // A read of a link waits at most so long.
    timeout: Duration,
    // The room of the next link.
    room: Vec<u8>,
    out: u64,
    next_faults: FaultCount,
    done_faults: FaultCount,
}

impl<T: OpenListener> TcpAcceptor<T> {
    /// An acceptor for so many sessions, with links of which a read waits at most `timeout`, and which have the room of
    /// this vector one after another; one that is handed out while another has it has none. It shows this opening.
    pub fn new(
        listener: T,
        sessions: u32,
        timeout: Duration,
        room: Vec<u8>,
        opening: Option<Opening>,
    ) -> TcpAcceptor<T>
        ensures opening { result.opening ≡ opening }
        ensures sessions { result.sessions ≡ sessions }
        ensures out { result.out ≡ 0 }
        ensures next_faults { result.next_faults ≡ 0 }
        ensures done_faults { result.done_faults ≡ 0 }
    {
        TcpAcceptor {
            opening,
            listener,
            sessions,
            timeout,
            room,
            out: 0,
            next_faults: FaultCount::new(),
            done_faults: FaultCount::new(),
        }
    }

    /// How often the next link couldn't be handed out. The count stands still at its type's end.
    pub fn next_faults(&self) -> u64
        ensures { result ≡ self.now.next_faults }
    {
        self.next_faults.count()
    }

    /// How often a link with faults was given back. The count stands still at its type's end.
    pub fn done_faults(&self) -> u64
        ensures { result ≡ self.now.done_faults }
    {
        self.done_faults.count()
    }
}

impl<T: OpenListener + Send> Acceptor for TcpAcceptor<T>
where
    T::Stream: io::Read + io::Write + OpenStream + Send,
{
    ghost use Rattle.ctl_io.specs.Custody.{only_out};

    type L = TcpLink<T::Stream>;

    ghost shows = { λ a. record {
      opening = a.opening;
      sessions = a.sessions;
      links = only_out a.out;
      next_faults = a.next_faults;
      done_faults = a.done_faults;
    } };

    fn next(&mut self) -> Next<TcpLink<T::Stream>> {
        if self.sessions == 0 {
            return Next::NoMore;
        }
        if self.out == u64::MAX {
            self.next_faults.raise();
            return Next::Failed;
        }
        match accept(&self.listener, self.timeout) {
            Ok(stream) => {
                self.sessions -= 1;
                self.out += 1;
                let none = Vec::new(*self.room.allocator());
                Next::One(TcpLink::over(stream, replace(&mut self.room, none)))
            }
            Err(_) => {
                self.next_faults.raise();
                Next::Failed
            }
        }
    }

    // What can't be sent by now is lost, and no fault more.
    fn done(&mut self, mut link: TcpLink<T::Stream>) {
        self.out -= 1;
        if link.write_faults() > 0 || link.read_faults() > 0 {
            self.done_faults.raise();
        }
        link.send();
        self.room = link.into_room();
    }
}

// The next connection, of which a read waits at most so long. A frame is sent at once and waits for no other; where the
// system can't be asked for that, it is no fault.
fn accept<T: OpenListener>(listener: &T, timeout: Duration) -> io::Result<T::Stream>
where
    T::Stream: io::Read + io::Write + OpenStream,
{
    let stream = next_connection(listener)?;
    let _ = stream.set_nodelay(true);
    stream.set_read_timeout(Some(timeout))?;
    Ok(stream)
}

// The next connection. One that its peer gave up before it was taken is no fault, and is passed over.
fn next_connection<T: OpenListener>(listener: &T) -> io::Result<T::Stream> {
    for _ in 0..u64::MAX {
        match call_again(|| listener.accept()) {
            Err(error) if error.kind() == ErrorKind::ConnectionAborted => {}
            answer => return answer.map(|(stream, _)| stream),
        }
    }
    Err(io::Error::from(ErrorKind::ConnectionAborted))
}
