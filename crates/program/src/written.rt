// How much of what a run prints was handed on. Nothing but `write_piece` counts it, and that writes what it counts; so who promises that a
// whole run is counted has written it.
ghost use Rattle.std.specs.Prelude.{◌≡◌, ◌+◌, ◌<◌, length, take, drop, IfOk, OnOk, OnErr};
ghost use Rattle.std.specs.Io.KnownBytes.{Appends};
ghost use Rattle.streams.specs.Parts.{AppendsPart};
ghost use Rattle.model.specs.Output.Orcrun.{orcrun};

use std::io;
use std::io::Write;
use streams::write_all;

// So many bytes, from the first on.
#[derive(Clone, Copy)]
pub struct Written {
    bytes: usize,
}

pub(crate) fn nothing() -> Written
    ensures { result.bytes ≡ 0 }
{
    Written { bytes: 0 }
}

// Writes the piece of what the run prints that comes next. Where the writer fails, the first bytes of it are written.
pub(crate) fn write_piece<W: Write>(
    written: Written,
    piece: &[u8],
    input: &[u8],
    writer: &mut W,
) -> io::Result<Written>
    requires piece_value { piece.now ≡ take (length piece.now) (drop written.bytes (orcrun input.now)) }
    requires piece_bound { (written.bytes + length piece.now) < 18446744073709551616 }
    ensures count { IfOk result (λ after. after.bytes ≡ written.bytes + length piece.now) }
    ensures ok { OnOk result (Appends (W.contents writer.old) (W.contents writer.new) piece.now) }
    ensures err { OnErr result (AppendsPart (W.contents writer.old) (W.contents writer.new) piece.now) }
{
    write_all(writer, piece)?;
    Ok(Written {
        bytes: written.bytes + piece.len(),
    })
}
