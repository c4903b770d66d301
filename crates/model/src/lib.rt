// The machine's types. What they mean is in specs/, in the order of document 01.
#![tactic(auto)]

mod cell;
pub mod record;
pub mod reply;
mod token;
