// RULES 17. Capture rounds for C and for the differential runs: state, words and rows as numbers in lent slices.
#![tactic(auto)]

pub mod console;
pub mod numbers;
pub mod payloads;
