// The twelve marked runs, as one theorem over one list; and the loops of document 02 that never end. Nothing of it runs.
#![tactic(auto)]
