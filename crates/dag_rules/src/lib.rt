// The index rules of a dag, tested on any words.
#![tactic(auto)]

pub mod dag;
mod node_words;
