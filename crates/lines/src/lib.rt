// RULES 14.2. From the bytes of an input to the lines of its listing, a part of each at a time.
#![tactic(auto)]

pub mod feed;
mod search;
