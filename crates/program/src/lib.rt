// The program: standard input, one run, standard output. `orcrun` and `orcrun_long` call `standard::run_input` and nothing else; `cases`
// prints by `output::print_run`.
#![tactic(auto)]

pub mod output;
pub mod standard;
mod written;
