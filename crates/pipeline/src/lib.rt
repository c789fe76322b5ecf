// RULES 10. The pipeline round: transactions, what is pending of them, and the round that agrees on them. Part of the
// third layer; its flood stands in `flood`, what both kinds of rounds are made of in `engines`.
#![tactic(auto)]

mod logs;
pub mod packet;
mod pending;
pub mod pipeline;
mod prepare;
mod process;
mod round;
pub mod two_pc_pipeline;
