// The index rules of the queue, the wait order and the order of call: each names every token in its state once, and nothing else.
#![tactic(auto)]

pub mod order;
