// RULES 3 and RULES 7. What both kinds of round are made of: words and draws, ticks and counts, rows, metrics and
// settings. With `capture`, `flood` and `pipeline` the third of the layers.
#![tactic(auto)]

pub mod columns;
pub mod metrics;
pub mod network;
pub mod node;
pub mod rows;
pub mod settings;
pub mod stretch;
pub mod words;
