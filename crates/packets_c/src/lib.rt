// RULES 17. Packets and merges for a console in C: include/packets.h.
#![tactic(auto)]

pub mod asking;
pub mod console;
pub mod desk;
