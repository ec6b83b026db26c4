// Code of `record`: lookups in its arrays, and records of zeros.
#![tactic(auto)]

pub mod list;
pub mod store;
