//! The items of a stream of bytes.
/// What a stream of bytes says. Frames, ACK and NAK are those of the SW-P-08 General Remote Control Protocol; that noise
/// and abandoned frames are no items is this project's profile. `D` is how the DATA of a good frame are held.
#[derive(Clone, Copy, Debug, PartialEq, Eq, Drop)]
pub enum Item<D> {
    /// A complete frame with the right length and check byte, and its DATA.
    Good(D),
    /// A complete frame with a wrong length or check byte.
    Bad,
    /// DLE ACK outside a frame: the last frame was good.
    Ack,
    /// DLE NAK outside a frame: the last frame was bad.
    Nak,
}
