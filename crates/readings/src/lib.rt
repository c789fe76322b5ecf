// RULES 12. What can be read of a room. Part of the fourth layer.
#![tactic(auto)]

pub mod readings;
