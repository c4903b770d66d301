// `orcrun` again, run on an input that is too long by a byte.
#![tactic(auto)]

use std::io;

fn main(rt: HostRuntime) -> io::Result<()> {
    program::standard::run_input(&mut rt.stdin(), &mut rt.stdout())
}
