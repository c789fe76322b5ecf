// RULES 13 and RULES 14.1. A frame line in, its listing line out.
#![tactic(auto)]

pub mod bounds;
pub mod line;
pub mod listing;
pub mod play;
mod put;
