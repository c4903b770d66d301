// The site call: parameters, built-in and outside sites.
#![tactic(auto)]

mod rwait;
pub mod site_call;
