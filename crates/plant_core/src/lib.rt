//! The one-thread plant: a machine whose state is plain data, and which each event of a panel steps. What an event does
//! and how it is answered is a function of the state and the event, by which all that is promised above is said. Each
//! panel is told by its polls of what the others changed, and each screen by polls of its own of what its displays show.
#![tactic(auto)]

mod answer;
mod brought;
mod connect;
mod dest_fields;
mod display;
mod display_fault;
mod display_laws;
mod due;
mod dump;
mod first_ties;
mod group_fields;
mod hear;
mod history_laws;
mod in_place;
mod laws;
mod machine;
mod marks;
mod moved;
mod notice_laws;
mod notices_fault;
mod notify;
mod place;
mod protect;
mod protect_laws;
mod read_dests;
mod read_fields;
mod read_groups;
mod read_notices;
mod read_shown;
mod read_state;
mod request;
mod salvo;
mod salvo_laws;
mod shown_fields;
mod state;
mod state_fault;
mod state_laws;
mod tables;
mod tallies;
mod wide;
mod write_fields;
mod write_notices;
mod write_state;

pub use answer::Answer;
pub use display_laws::{
    a_refresh_tells_all, only_changes_move_lamps, polls_are_quiet_where_nothing_differs,
    polls_tell_each_once, polls_tell_when_all_is_finished,
};
pub use history_laws::{answers_can_be_sent, histories_stay_valid};
pub use laws::{
    answers_are_few, connects_are_made, connects_stand, dumps_tell_what_stands,
    numbers_have_no_effect, questions_only_ask, states_stay_valid,
};
pub use notice_laws::{
    changes_are_noticed, notices_stand_until_told, polls_go_in_order, polls_tell_one_notice,
    whoever_left_hears_nothing,
};
pub use protect_laws::{
    protects_are_lifted, protects_are_made, protects_begin_with_none, protects_hold,
};
pub use read_state::StateFault;
pub use request::Request;
pub use salvo_laws::{entries_are_kept, goes_are_answered, goes_are_whole};
pub use state::PlantState;
pub use state_laws::{texts_are_whole, texts_tell_states};
pub use wide::{is_short_dest, is_short_source};
pub use write_state::state_size;
