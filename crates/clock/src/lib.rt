// What a clock move writes: the tokens now due wake and join the queue, and the clock shows the new time.
#![tactic(auto)]

pub mod advance;
