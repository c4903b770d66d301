// The machine's public calls: start, step, answer, advance. Each is for any words of a record and of a dag, and gives what
// specs/PublicCalls.antt says.
#![tactic(auto)]

pub mod advance;
pub mod answer;
mod lawful;
pub mod start;
pub mod step;
