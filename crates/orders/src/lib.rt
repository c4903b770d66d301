// Orders of names in arrays: leaving one out, keeping those that are marked; words that are all 0. Which words of a record are an order is
// in crate `record`.
#![tactic(auto)]

pub mod names;
pub mod zero;
