// Code of `pages` that looks at a page: its place, key and read.
#![tactic(auto)]

pub mod key;
pub mod named;
pub mod read;
