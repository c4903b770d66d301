// The parts of a turn of a house run: the record that is delivered, and the tests on a reply.
#![tactic(auto)]

pub mod deliver;
pub mod reply;
