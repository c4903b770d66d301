// The index rules of one token or one cell, tested on any words and any dag words.
#![tactic(auto)]

pub mod blank;
pub mod chain;
pub mod node;
pub mod range;
