// Runs each stored input as `orcrun` runs its own, and prints a line `case` with its number and then what the run prints. On standard input
// an input stands behind its length, 4 bytes, the lowest first.
#![tactic(auto)]

use job::wide::wide;
use program::output::print_run;
use std::io;
use std::io::{Read, Write};
use streams::read_full;

// No more inputs than this, so that the program ends on any standard input.
const MOST: u64 = 100000;

// Reads an input and prints its run. Answers false where none is left.
fn next<R: Read, W: Write>(
    reader: &mut R,
    writer: &mut W,
    number: u64,
    space: &mut [u8],
) -> io::Result<bool> {
    let mut size = [0u8; 4];
    if read_full(reader, &mut size)? < 4 {
        return Ok(false);
    }
    let n = wide(u32::from_le_bytes(size)).min(space.len());
    let input = &mut space[..n];
    if read_full(reader, input)? < n {
        return Ok(false);
    }
    write!(writer, "case {number}\n")?;
    print_run(input, writer)?;
    Ok(true)
}

fn main(rt: HostRuntime) -> io::Result<()> {
    let mut reader = rt.stdin();
    let mut writer = rt.stdout();
    // One byte more than a run may have.
    let mut space = [0u8; 65537];
    for number in 0..MOST {
        if !next(&mut reader, &mut writer, number, &mut space)? {
            break;
        }
    }
    Ok(())
}
