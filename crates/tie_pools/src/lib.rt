//! The ties that bring remote sources to destinations. A list of changes is planned first, by whether the ties are enough
//! for all of it at once, and then made: a source that comes already shares its tie, and another one takes the lowest free.
//! How many destinations each source feeds, the pools that aren't enough and the free ties are kept beside the crosspoints, so
//! that neither call looks through the plant. All memory is taken at the start.
#![tactic(auto)]

mod commit;
mod counts;
mod demand;
mod holdings;
mod in_use;
mod laws;
mod plan;
mod planned;
mod rebuild;
mod reserve;
mod route;
mod ties;
mod ways;

pub use laws::{
    a_master_may_use_all_ties, a_master_may_what_a_panel_may, who_needs_no_more_is_not_refused,
    without_a_reserve_all_panels_may_the_same,
};
pub use planned::{Exhausted, Planned};
pub use ties::Ties;
