// Code of `card`: header, directory and trailer, as they are put and read back, and questions 3 to 8.
#![tactic(auto)]

pub mod checkpoint;
pub mod directory;
pub mod header;
pub mod trailer;
