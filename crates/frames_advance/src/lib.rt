// Code of `frames` that writes the card: page-out and advance.
#![tactic(auto)]

pub mod advance;
pub mod page_out;
