// Site calls: parameters looked up in the words of a record, what built-in sites say and when, and answers to outside calls.
#![tactic(auto)]

pub mod answer;
pub mod due;
pub mod look;
pub mod number;
pub mod site;
