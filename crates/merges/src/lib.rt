// RULES 4.1 and RULES 6. Votes, proposals and merges of capture packets, by two_pc_ce.rs: the one step at which
// positions change what they hold.
#![tactic(auto)]

pub mod merging;
pub mod votes;
