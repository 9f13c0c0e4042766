//! The rules that the entries of a plant file keep together: how many there may be in all, what may not be there twice, and
//! what an entry may name. A text is read with `plant_file`, and what breaks a rule is refused by its first fault, behind
//! those of its sections and keys. What is read without a fault is right.
#![tactic(auto)]

mod data;
mod keys;
mod known;
mod laws;
mod links;
mod reading;
mod rule;
mod sums;
mod twice;
mod unknown;

pub use laws::{a_plant_file_is_right, faults_have_a_place, the_rules_are_exact};
pub use reading::read;
