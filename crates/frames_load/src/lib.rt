// Code of `frames` that looks: questions 1 to 3, start, the newest bytes of a frame, the forecast.
#![tactic(auto)]

pub mod forecast;
pub mod load;
pub mod question;
pub mod start;
