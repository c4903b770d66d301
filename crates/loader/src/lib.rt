// From a job table to a dag.
#![tactic(auto)]

mod head;
mod program;
pub mod table;
