// RULES 9. The identical flood, ported from phy/ci.rs.
#![tactic(auto)]

pub mod flood;
mod quiet;
