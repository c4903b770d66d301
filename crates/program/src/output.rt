// What a run prints, in pieces as long as the room that there is.
ghost use Rattle.std.specs.Prelude.{◌≡◌, ◌<◌, length, IfOk, OnOk, OnErr};
ghost use Rattle.std.specs.Io.KnownBytes.{Appends};
ghost use Rattle.streams.specs.Parts.{AppendsPart};
ghost use Rattle.model.specs.Output.Orcrun.{orcrun};

use crate::written::{Written, nothing, write_piece};
use job::dag::WORDS;
use run::orcrun::orcrun;
use std::io;
use std::io::Write;

// Prints what the run prints. A run that prints more than one piece is run again for the next.
fn print<W: Write>(
    input: &[u8],
    dag: &mut [u32; WORDS],
    output: &mut [u8],
    writer: &mut W,
) -> io::Result<Written>
    requires { 0 < length output.old }
    ensures count { IfOk result (λ written. written.bytes ≡ length (orcrun input.now)) }
    ensures ok { OnOk result (Appends (W.contents writer.old) (W.contents writer.new) (orcrun input.now)) }
    ensures err { OnErr result (AppendsPart (W.contents writer.old) (W.contents writer.new) (orcrun input.now)) }
{
    let room = output.len();
    let mut from = 0;
    let mut left = orcrun(input, 0, dag, output);
    let mut written = nothing();
    while room < left {
        written = write_piece(written, output, input, writer)?;
        left -= room;
        from += room;
        orcrun(input, from, dag, output);
    }
    write_piece(written, &output[0..left], input, writer)
}

// Room for the lines of nearly every run: 256 KiB.
fn output_buffer() -> [u8; 262144]
    ensures { length result ≡ 262144 }
{
    [0; 262144]
}

// Runs the job of an input and prints its lines, all of them. The only errors are the writer's (`streams::write_all`): then the first bytes
// of the lines are written.
pub fn print_run<W: Write>(input: &[u8], writer: &mut W) -> io::Result<Written>
    ensures count { IfOk result (λ written. written.bytes ≡ length (orcrun input.now)) }
    ensures ok { OnOk result (Appends (W.contents writer.old) (W.contents writer.new) (orcrun input.now)) }
    ensures err { OnErr result (AppendsPart (W.contents writer.old) (W.contents writer.new) (orcrun input.now)) }
{
    let mut output = output_buffer();
    let mut dag = [0u32; WORDS];
    print(input, &mut dag, &mut output, writer)
}
