// `orcrun`: a job's table and the answers to its calls on standard input, the lines of its run on standard output.
#![tactic(auto)]

use std::io;

fn main(rt: HostRuntime) -> io::Result<()> {
    program::standard::run_input(&mut rt.stdin(), &mut rt.stdout())
}
