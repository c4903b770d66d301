// The end of a call: what is no longer in use is made blank.
#![tactic(auto)]

pub mod sweep;
