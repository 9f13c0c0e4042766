//! Audits of traces: whether the lines of a trace are a history of the plant, from its start and without a gap. Each line
//! is read, whatever their order, and the requests are made again in the order of their positions, on one plant. What is
//! promised rests on what a line tells, and on `specs/Verdict.antt`, what is found.
#![tactic(auto)]

mod kept;
mod laws;
mod rows;
mod trace;
mod verdict;
mod walk;

pub use laws::{
    bad_lines_spell_none, confirmed_are_histories, findings_are_so, histories_are_confirmed,
    order_is_no_matter, traces_have_one_verdict, what_is_so_is_found,
};
pub use trace::audit;
pub use verdict::Verdict;
