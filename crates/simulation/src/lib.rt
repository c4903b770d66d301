// An abstract machine (tokens that carry all they need, cells that are never used again, no limits) and that it does what the calculus
// does. Laws only: nothing of it runs.
#![tactic(auto)]
