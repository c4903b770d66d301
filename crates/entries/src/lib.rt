// The entries of an expression: which number refuses one by itself, which variables are in scope, and the expression as a whole, with its
// number of nodes.
#![tactic(auto)]

pub mod checked;
pub mod entry;
pub mod expression;
mod parameter;
pub mod parts;
pub mod refusal;
pub mod scope;
pub mod table_kind;
