// RULES 8. The capture round, ported from phy/ce.rs: a slot is planned, then applied.
#![tactic(auto)]

pub mod board;
pub mod capture;
pub mod ce;
pub mod idle;
pub mod plan;
pub mod turns;
