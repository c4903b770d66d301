// Demand 3, whole, and what every record of a run keeps. Laws only: nothing of it runs.
#![tactic(auto)]
