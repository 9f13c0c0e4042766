//! What happens to a driver.

use swp08_messages::Message;

/// What happens to a driver.
#[derive(Clone, Copy, Debug, PartialEq, Eq)]
pub enum DriverEvent {
    /// The destination is to carry the source, or to be parked with `None`.
    Want {
        /// A destination of the level.
        dest: u16,
        /// 0 to 1022, and 0 to 65534 on a wide level.
        source: Option<u16>,
    },
    /// The frame sent a message.
    Heard(Message),
    /// The frame refused the bytes of a message.
    Nak,
    /// The answer to the outstanding message is overdue.
    Timeout,
}
