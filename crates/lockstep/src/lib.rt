// The machine in lock step with the abstract machine, and so the first part of demand 3. Laws only: nothing of it runs.
#![tactic(auto)]
