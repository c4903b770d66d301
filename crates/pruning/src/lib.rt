// What a choke writes: the cell's value, the tokens that end, those that wake, and the orders without the ended ones.
#![tactic(auto)]

pub mod choke;
