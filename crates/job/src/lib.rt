// A job: its table, its dag, and the numbers that they name. Nothing of the machine is read here.
#![tactic(auto)]

pub mod bounds;
pub mod dag;
pub mod site_parameters;
pub mod wide;
