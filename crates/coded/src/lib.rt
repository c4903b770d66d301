// The test of words: are they those of a machine record? Crate `record` says which word stands where.
#![tactic(auto)]

pub mod word_tests;
