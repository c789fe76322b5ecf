// RULES 17. Rooms for C and for the differential runs: opened and called by numbers in lent slices, and their answers
// in such slices.
#![tactic(auto)]

pub mod answers;
pub mod console;
