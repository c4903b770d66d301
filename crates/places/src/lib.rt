// Where a new token or cell goes.
#![tactic(auto)]

pub mod place;
