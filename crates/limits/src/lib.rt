// RULES 16. The numbers that every layer goes by: what a room never exceeds, and the refusals.
#![tactic(auto)]

pub mod refusals;

pub const POSITIONS: usize = 64;

pub const TRANSACTIONS: usize = 64;

pub const LAST_SLOT: u64 = 4294967295;

pub const LAST_TERM: u64 = 18446744073709551615;

pub const BITMAP: usize = 64;

pub const DATA: usize = 32;

// The bytes that the radio puts before every payload.
pub const HEADER: u64 = 11;

// The numbers of a row.
pub const ROW: usize = 5;
