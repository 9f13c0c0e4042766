//! The laws of packets on a stream, each a function with nothing to do.
ghost use Rattle.std.specs.Prelude.{ℕ, List};
ghost use Rattle.tsl_stream.specs.Items.{stream_reading};
ghost use Rattle.tsl_stream.specs.Laws.{ReadsByPacketStart, OneReadsByPacketStart};
ghost use Rattle.tsl_stream.specs.Laws.{StreamReadsOn, StreamItemsStay, RowsAreRead};

/// The reading of a text goes by the text's start, and is the only one that does.
pub fn reads_by_start()
    ensures reads { ReadsByPacketStart stream_reading }
    ensures only { OneReadsByPacketStart }
{}

/// Where a text goes on, its items stay, and what comes is read behind its rest alone. So the items of a text are a front
/// of those of every text that it is a front of, however the text was cut.
pub fn reads_on()
    ensures goes_on { (text more : List ℕ) → StreamReadsOn text more }
    ensures front { StreamItemsStay }
{}

/// The texts of packets in a row are read as these packets in that order, and no rest is left.
pub fn reads_rows()
    ensures { RowsAreRead }
{}
