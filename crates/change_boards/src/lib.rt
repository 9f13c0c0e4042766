//! What has yet to be told: the notices of each panel and which panels have left, what each display was last shown, and
//! the displays of each screen. A panel's notices are two sets of destinations and are removed one by one, the lowest first;
//! the displays of a screen are in the order of their indexes. All memory is taken when these are made.
#![tactic(auto)]

mod laws;
mod notices;
mod panel_board;
mod screens;
mod shown;
mod sort;
mod value;

pub use laws::{
    a_display_is_shown_alone, boards_stay_boards, leaves_are_of_one_panel, marks_add_one_notice,
    removals_are_of_one_notice, removals_go_in_order, screens_have_their_displays,
};
pub use notices::Notices;
pub use screens::Screens;
pub use shown::Shown;
pub use sort::Sort;
pub use value::Value;
