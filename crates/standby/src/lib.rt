//! A standby: a second controller, which follows the history of a first one by its requests and their positions, over a line
//! that loses, repeats and reorders them. It steps no request out of its place, and its state is always that of a front of
//! the history. All memory is taken when it is made.
#![tactic(auto)]

mod laws;
mod replica;
mod same;
mod standby;
mod took;
mod window;

pub use laws::{
    answers_are_exact, fronts_are_exact, new_standbys_follow, nothing_is_lost, standbys_agree,
    standbys_follow, standbys_keep_the_same, states_are_of_fronts, takeovers_go_on,
};
pub use standby::Standby;
pub use took::Took;
