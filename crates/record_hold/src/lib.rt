// Code of `record`: question 2, does it hold together? And where its generations begin and frames wait.
#![tactic(auto)]

pub mod hold;
pub mod place;
