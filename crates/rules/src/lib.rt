// The index rules of a whole record, tested on any words and any dag words. What they say is in crate `model`, which word stands where in
// crate `record`; crate `row_rules` tests each token and each cell, crate `order_rules` the orders, crate `dag_rules` the dag.
#![tactic(auto)]

mod cells;
mod handles;
pub mod rules;
mod tokens;
