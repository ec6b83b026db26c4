// Code of `pages`: the calls that name no page. Format, start, snapshot, page-out, advance, forecast.
#![tactic(auto)]

pub mod advance;
pub mod forecast;
pub mod format;
mod home;
pub mod page_out;
pub mod snapshot;
pub mod start;
