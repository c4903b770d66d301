// A reply on standard output, for programs that try the public calls.
#![tactic(auto)]

pub mod reply_line;
