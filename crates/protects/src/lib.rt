//! Which device protects each destination. A device protects what is unprotected or its own, and lifts what it owns, or as
//! a master what any device owns. All memory is taken at the start, and no call looks at another destination.
#![tactic(auto)]

mod laws;
mod protects;

pub use laws::{calls_change_one_owner, foreign_protects_stay, lifts_free, protects_are_owned};
pub use protects::Protects;
