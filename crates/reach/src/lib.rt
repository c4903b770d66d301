// What of a machine record is in use, as marks.
#![tactic(auto)]

mod mark;
pub mod marks;
pub mod under_set;
pub mod used;
