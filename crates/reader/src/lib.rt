// The reader of a job table: it checks the entries, and finds what is read or the refusal's number and entry.
#![tactic(auto)]

mod calls;
mod definition;
mod program;
pub mod table;
