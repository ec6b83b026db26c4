// What a lane program links: it keeps one record and lends it to each call. The calls of `pages`, over a record that
// is lent, for Rattle, C and Rust. What they promise is in `linked`.
#![tactic(auto)]

pub mod call;
pub mod lend;
pub mod number;
