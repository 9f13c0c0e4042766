//! What holds of the lines of traces.

ghost use Rattle.trace_lines.specs.Laws.{OneEntry, WrittenIsRead};

/// A line tells its entry: two entries with one line have one position, one request and one reply.
pub fn one_entry()
    ensures { OneEntry }
{}

/// What is written is read back: the line of a request that fits the plant, with bytes as its reply, tells just these.
pub fn written_is_read()
    ensures { WrittenIsRead }
{}
