// The compiler: from the entries of an accepted expression to the dag's words.
#![tactic(auto)]

pub mod body;
mod call;
pub mod expression;
mod join;
mod plan;
mod store;
