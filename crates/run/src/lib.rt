// One run of a job, from the bytes of the input to the bytes that `orcrun` prints. Programs call `orcrun::orcrun`.
#![tactic(auto)]

mod input;
pub mod orcrun;
