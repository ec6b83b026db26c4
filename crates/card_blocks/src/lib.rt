// Code of `card`: stored numbers, blocks, the ring of the checkpoint area.
#![tactic(auto)]

pub mod block;
pub mod number;
pub mod ring;
