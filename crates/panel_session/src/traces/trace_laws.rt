//! What holds of the lines of a trace.

ghost use Rattle.panel_session.specs.ReplyLaws.{LinesEndOnce};

/// A line ends only where its LF stands: a text of lines is cut at each LF into just these.
pub fn lines_end_once()
    ensures { LinesEndOnce }
{}
