//! What is true of all finite maps from numbers, not only of those that a program makes.

ghost use Rattle.number_tables.specs.Table.{Entries};
ghost use Rattle.number_tables.specs.Laws.{PutChangesOne, PutAsItStands};

/// To set a number gives it its value, or removes it, and every other number has what it had.
pub fn sets_change_one_number<V>()
    ensures { (entries : Entries V) → PutChangesOne entries }
{}

/// To set what a number has already changes nothing.
pub fn a_value_set_again_changes_nothing<V>()
    ensures { (entries : Entries V) → PutAsItStands entries }
{}
