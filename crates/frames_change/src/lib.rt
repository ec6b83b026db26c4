// Code of `frames` that changes what waits in memory: changes of frames, and the snapshot.
#![tactic(auto)]

pub mod change;
pub mod snapshot;
