//! What holds of every trace.

ghost use Rattle.trace_audit.specs.Laws.{HistoriesAreConfirmed, ConfirmedAreHistories};
ghost use Rattle.trace_audit.specs.Laws.{TracesHaveOneVerdict, BadLinesTellNone};
ghost use Rattle.trace_audit.specs.Laws.{FirstBadLinesAreNamed, NoBadLineIsPassed};
ghost use Rattle.trace_audit.specs.Laws.{OrderIsNoMatter, BadLinesAreFound};
ghost use Rattle.trace_audit.specs.FindingLaws.{GapsAreSo, RepeatsAreSo, DifferencesAreSo};
ghost use Rattle.trace_audit.specs.FindingLaws.{GapsAreFound, RepeatsAreFound};
ghost use Rattle.trace_audit.specs.FindingLaws.{DifferencesAreFound};

/// The lines of a history of the plant are confirmed, each once, in whatever order they stand.
pub fn histories_are_confirmed()
    ensures { HistoriesAreConfirmed }
{}

/// What is confirmed is a history of the plant: there is one that has just these lines, each once, and as many entries as
/// were counted.
pub fn confirmed_are_histories()
    ensures { ConfirmedAreHistories }
{}

/// A trace has one verdict.
pub fn traces_have_one_verdict()
    ensures { TracesHaveOneVerdict }
{}

/// No line is refused but by its own text: the line that a verdict names is the first that tells no entry, and the first that
/// tells none is named. No such line is passed over.
pub fn bad_lines_spell_none()
    ensures refused { BadLinesTellNone }
    ensures named { FirstBadLinesAreNamed }
    ensures passed { NoBadLineIsPassed }
{}

/// The order of the lines is no matter: where no line is bad, the verdict is the same in every order, and where one is, some
/// line is found bad in every order.
pub fn order_is_no_matter()
    ensures same { OrderIsNoMatter }
    ensures bad { BadLinesAreFound }
{}

/// What is found is so: below the position of a finding the lines are those of a history of the plant, and at it no line
/// stands, or several, or one that keeps another reply than the plant's behind that history.
pub fn findings_are_so()
    ensures gap { GapsAreSo }
    ensures repeat { RepeatsAreSo }
    ensures differs { DifferencesAreSo }
{}

/// And what is so is found: whatever is a gap, a repeat or a difference is the trace's verdict.
pub fn what_is_so_is_found()
    ensures gap { GapsAreFound }
    ensures repeat { RepeatsAreFound }
    ensures differs { DifferencesAreFound }
{}
