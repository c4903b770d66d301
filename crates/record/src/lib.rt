// The machine record as words that the caller lends. This crate alone knows which word stands where (specs/Words.antt has the table).
#![tactic(auto)]

pub mod cell;
pub mod count;
pub mod layout;
pub mod order;
pub mod start;
pub mod token;
