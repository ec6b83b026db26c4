// Code of `frames`: each kind of block that advance writes behind the waiting frames.
#![tactic(auto)]

pub mod kind;
