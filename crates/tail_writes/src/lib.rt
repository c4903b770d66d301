// A definition call in tail position: the test for it, and what it writes. The sweep behind it is in crate `tail_calls`.
#![tactic(auto)]

mod passing;
pub mod tail;
pub mod tail_call;
