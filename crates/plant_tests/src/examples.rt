//! One short use of each crate, to which its PROMISES.md leads.

mod of_change_boards;
mod of_crosspoint_state;
mod of_due_displays;
mod of_mixer_effects;
mod of_plant_config;
mod of_plant_core;
mod of_plant_file;
pub(crate) mod of_plant_names;
mod of_plant_rules;
mod of_plant_snapshot;
mod of_protects;
mod of_salvo_groups;
mod of_standby;
mod of_tally;
mod of_tie_pools;
