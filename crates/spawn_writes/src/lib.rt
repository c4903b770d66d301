// What the instructions that make a token write: a few fields in the order of their clauses. The tests before them are in crate `spawns`.
#![tactic(auto)]

pub mod branches;
pub mod definition_call;
pub mod fork;
pub mod where_split;
