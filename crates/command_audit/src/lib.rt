//! The command `audit` of `plantctl`: whether traces are a history of a plant. What it promises stands in
//! `specs/Audit.antt`, and what it shares with other commands in `command_rows`.
#![tactic(auto)]

mod laws;
mod row;
mod verdict;

pub use laws::audits;
pub use row::audit;
