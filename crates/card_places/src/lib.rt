// Code of `card`: home ranges, the place of an OID, allocation pots.
#![tactic(auto)]

pub mod pot;
pub mod range;
