//! Where in a stream a reader is.

/// Where in a stream the last byte was. What a start announces is a frame or a packet.
#[derive(Clone, Copy)]
pub enum State {
    /// Outside a frame, with nothing pending.
    Outside,
    /// Outside a frame, behind a DLE.
    OutsideDle,
    /// In a frame, behind whole pieces of it.
    Inside,
    /// In a frame, behind a DLE that no piece has taken.
    InsideDle,
}
