// RULES 2. Who hears whom: sets of up to 64 marks, graphs of links, paths and the diameter. The first of the four
// layers.
#![tactic(auto)]

pub mod console;
pub mod network;
pub mod sets;
