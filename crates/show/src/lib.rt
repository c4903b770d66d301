// A record as lines on standard output, for programs that try the public calls.
#![tactic(auto)]

pub mod fields;
