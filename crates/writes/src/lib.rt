// What each instruction writes that makes no token and is no choke: a few fields in the order of its clause. The tests before it and the
// sweep behind it are in crates `acts` and `calls`.
#![tactic(auto)]

pub mod actor;
pub mod dag;
pub mod end;
pub mod rebind;
pub mod return_value;
pub mod site_call;
