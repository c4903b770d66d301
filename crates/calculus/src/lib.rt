// The Orc calculus, in definitions and laws only: nothing of it runs, and nothing of the machine is read here.
#![tactic(auto)]
