// A house run: turn after turn on a loaded dag, and its lines in a caller's output.
#![tactic(auto)]

pub mod house;
mod turn;
