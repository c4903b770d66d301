// A definition call in tail position: what is written, and the sweep where a bound cell may be lost.
#![tactic(auto)]

pub mod tail_call;
