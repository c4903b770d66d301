// Bytes from a reader until a buffer is full, and all of some bytes to a writer. No other error comes than the reader's and the writer's
// own, and `WriteZero` where a writer takes no byte; a call that a signal interrupts counts as one that failed.
#![tactic(auto)]

ghost use Rattle.std.specs.Prelude.{◌<◌, length, take, IfOk, OnOk, OnErr};
ghost use Rattle.std.specs.Io.{ReadsAtMost};
ghost use Rattle.std.specs.Io.KnownBytes.{Appends, Consumes, IsAtEnd};
ghost use Rattle.streams.specs.Parts.{AppendsPart, ConsumesPart};

use std::io;
use std::io::{Error, ErrorKind, Read, Write};

// Reads until `buf` is full or the reader is at its end, and answers how many bytes it put at the start of `buf`. An error leaves there
// what was read before it.
pub fn read_full<R: Read>(reader: &mut R, buf: &mut [u8]) -> io::Result<usize>
    ensures bound { ReadsAtMost result buf.new }
    ensures bytes { IfOk result (λ n. Consumes (R.remaining reader.old) (R.remaining reader.new) (take n buf.new)) }
    ensures end { IfOk result (λ n. n < length buf.new → IsAtEnd (R.remaining reader.new)) }
    ensures err { OnErr result (ConsumesPart (R.remaining reader.old) (R.remaining reader.new) buf.new) }
{
    let mut done = 0;
    while done < buf.len() {
        let given = reader.read(&mut buf[done..])?;
        if given == 0 {
            return Ok(done);
        }
        done += given;
    }
    Ok(done)
}

// Writes all the bytes. At an error the first of them are written.
pub fn write_all<W: Write>(writer: &mut W, bytes: &[u8]) -> io::Result<()>
    ensures ok { OnOk result (Appends (W.contents writer.old) (W.contents writer.new) bytes.now) }
    ensures err { OnErr result (AppendsPart (W.contents writer.old) (W.contents writer.new) bytes.now) }
{
    let mut rest = bytes;
    while !rest.is_empty() {
        let taken = writer.write(rest)?;
        if taken == 0 {
            return Err(Error::from(ErrorKind::WriteZero));
        }
        rest = &rest[taken..];
    }
    Ok(())
}
