// From a reader to a writer: the program's standard input and its standard output.
ghost use Rattle.std.specs.Prelude.{◌≡◌, length, OnOk, OnErr, IfSome};
ghost use Rattle.std.specs.Io.KnownBytes.{Appends};
ghost use Rattle.streams.specs.Parts.{AppendsPart};
ghost use Rattle.model.specs.Output.Orcrun.{orcrun};
ghost use Rattle.program.specs.Input.{input_room};

use crate::output::print_run;
use std::io;
use std::io::{Read, Write};
use streams::read_full;

// One byte more than a run may have: so many say of any input what it prints (`proofs/InputRoom.antt`).
fn input_buffer() -> [u8; 65537]
    ensures { length result ≡ input_room }
{
    [0; 65537]
}

// Runs the job on standard input, and prints its lines. The only errors are the reader's, where nothing is printed, and the writer's, where
// the first bytes of the lines are (`streams`).
pub fn run_input<R: Read, W: Write>(reader: &mut R, writer: &mut W) -> io::Result<()>
    ensures ok { OnOk result (IfSome (R.remaining reader.old)
        (λ input. Appends (W.contents writer.old) (W.contents writer.new) (orcrun input))) }
    ensures err { OnErr result (IfSome (R.remaining reader.old)
        (λ input. AppendsPart (W.contents writer.old) (W.contents writer.new) (orcrun input))) }
{
    let mut input = input_buffer();
    let n = read_full(reader, &mut input)?;
    print_run(&input[0..n], writer)?;
    Ok(())
}
