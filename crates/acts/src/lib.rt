// The instructions that make no token and call no site: what each writes, and the sweep where something may be out of reach.
#![tactic(auto)]

pub mod choke;
pub mod end;
pub mod links;
pub mod rebind;
pub mod report;
