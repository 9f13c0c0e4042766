//! Which displays are due: those that may differ from what they were last shown. A destination leads to the displays that
//! watch it, and a screen to the first of its displays that is due. All memory is taken when this is made.
#![tactic(auto)]

mod due_displays;
mod row;
mod tables;
mod watchers;

pub use due_displays::DueDisplays;
