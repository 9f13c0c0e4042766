//! What is true of all lists, not only of those that a program makes.

ghost use Rattle.tap_lists.specs.Lists.{Lists};
ghost use Rattle.tap_lists.specs.Laws.{LinksInsertFirst, UnlinksRemove, WalksAnswerAll};

/// A link inserts a member first in one list, and leaves every other list as it was.
pub fn links_insert_first()
    ensures { (lists : Lists) → LinksInsertFirst lists }
{}

/// An unlink leaves a member under no head, its list without it, and every other list as it was.
pub fn unlinks_remove()
    ensures { (lists : Lists) → UnlinksRemove lists }
{}

/// A first read of a list, and a read behind each member that is answered, answer all members of the list in their order
/// and then nothing: one read more than there are members.
pub fn walks_answer_all()
    ensures { (lists : Lists) → WalksAnswerAll lists }
{}
