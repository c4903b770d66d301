// Runs by the public calls, on words that a host keeps: demand 3 and never 14 of them. Laws only: nothing of it runs.
#![tactic(auto)]
