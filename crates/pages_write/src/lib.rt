// Code of `pages` that changes a page: write and rescind.
#![tactic(auto)]

pub mod rescind;
pub mod write;
