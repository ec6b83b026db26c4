// The record that a lane program keeps between calls: its form, what it means, what question 2 asks of it, and laws.
// The code is in `record_list` and `record_hold`.
#![tactic(auto)]

pub mod store;
