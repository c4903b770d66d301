// A case's rows: eight bytes that set one word, or make one call (docs/src/README.md, "Records as bytes").
ghost use Rattle.std.specs.Prelude.{◌≡◌, length};

use sites::number::signed;

#[derive(Clone, Copy)]
pub(crate) enum Call {
    Start,
    // at a place of the queue
    Step(u32),
    // a handle and a value
    Answer(u32, i32),
    Advance(u32),
}

// A word of the dag, or of the record, by its index; or a call.
#[derive(Clone, Copy)]
pub(crate) enum Row {
    Dag(usize, u32),
    Record(usize, u32),
    Call(Call),
}

pub(crate) fn read_row(row: &[u8]) -> Row
    requires { length row.now ≡ 8 }
{
    let index = u16::from_le_bytes([row[2], row[3]]);
    let word = u32::from_le_bytes([row[4], row[5], row[6], row[7]]);
    match row[0] {
        0 => Row::Dag(usize::from(index), word),
        1 => Row::Record(usize::from(index), word),
        16 => Row::Call(Call::Start),
        17 => Row::Call(Call::Step(word)),
        19 => Row::Call(Call::Advance(word)),
        _ => {
            // A handle has three bytes, the highest behind the row's kind.
            let handle = u32::from(row[1]) * 65536 + u32::from(index);
            Row::Call(Call::Answer(handle, signed(word)))
        }
    }
}
