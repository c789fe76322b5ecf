// RULES 11. Rooms: opened, called, read. The fourth of the layers.
#![tactic(auto)]

pub mod capture_calls;
pub mod pipeline_calls;
pub mod room;
