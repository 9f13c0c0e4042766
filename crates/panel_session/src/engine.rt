//! What a turn is worked over: what answers its requests, and where its bytes go.

pub(crate) mod answerer;
pub(crate) mod at_lock;
pub(crate) mod drain;
pub(crate) mod of_plant;
pub(crate) mod outlet;
