// The calls on a record whose index rules hold: they are not tested again. The marks say what is in use, before a call and after it.
#![tactic(auto)]

mod act;
pub mod advance;
pub mod answer;
mod callees;
mod report;
pub mod start;
pub mod step;
