//! What the bytes of a drill say, each a function with nothing to do.

ghost use Rattle.drill.specs.Laws.{FramesAreCounted, MessagesAskThePlant, StreamsAreRead};

/// The bytes of a panel are read as the items of its messages, one each, and no rest.
pub fn streams_are_read()
    ensures { StreamsAreRead }
{}

/// Of so many messages each hundredth is sent as a bad frame, and the others as good ones.
pub fn frames_are_counted()
    ensures { FramesAreCounted }
{}

/// Each message asks something of the plant, and its numbers are in their ranges.
pub fn messages_ask_the_plant()
    ensures { MessagesAskThePlant }
{}
