// A loop in tail position runs in bounded tables. Laws only: nothing of it runs.
#![tactic(auto)]
