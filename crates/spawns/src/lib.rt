// The instructions that make a token: the tests that may refuse one, and what it writes. Nothing is out of reach after them.
#![tactic(auto)]

pub mod definition_call;
pub mod fork;
pub mod where_split;
