// RULES 17. Pipeline rounds for C and for the differential runs: a room, words and rows as numbers in lent slices.
#![tactic(auto)]

pub mod console;
pub mod rounds;
