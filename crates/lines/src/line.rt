// A line as data, and its bytes.
ghost use Rattle.std.specs.Prelude.{◌+◌, ◌≤◌, [], ◌∷◌, length};
ghost use Rattle.job.specs.Decimal.{decimal};
ghost use Rattle.model.specs.Output.Line.{text_of, line_of};
ghost use Rattle.decimal.specs.Written.{Written};
ghost use Rattle.lines.specs.LineTold.{told, HasFewValues};

use crate::word::{put_feed, put_number, put_value, put_value_list, put_word};

// A call's line has its handle, its site and its values, a table's the number of its refusal and the entry.
#[derive(Clone, Copy)]
pub enum Line<'a> {
    Call(u32, u16, &'a [i32]),
    Publish(i32),
    Refused(u8),
    Table(u8, u32),
    End(u32),
    Limit,
    Short,
    Long,
}

// A word and a number: the lines `refused` and `end`.
fn put_counted(buffer: &mut [u8], at: usize, first: &[u8], n: u32) -> usize
    requires { (at + 80 ≤ length buffer.old) × (length first.now ≤ 7) }
    ensures { Written 80 buffer.old at (line_of first.now (decimal n ∷ [])) buffer.new result }
{
    let to = put_word(buffer, at, first);
    let to = put_number(buffer, to, n);
    put_feed(buffer, to)
}

impl Line<'_> {
    // No line is longer: `few` of the contract.
    pub(crate) const LONGEST: usize = 80;

    // (Inlined, so that a caller's case alone is left of the match.)
    #[inline(always)]
    pub fn put(self, buffer: &mut [u8], at: usize) -> usize
        requires { (at + 80 ≤ length buffer.old) × HasFewValues self }
        ensures { Written 80 buffer.old at (text_of (told self.entry)) buffer.new result }
    {
        match self {
            Line::Call(handle, site, values) => {
                let to = put_word(buffer, at, b"call");
                let to = put_number(buffer, to, handle);
                let to = put_number(buffer, to, site as u32);
                let to = put_value_list(buffer, to, values);
                put_feed(buffer, to)
            }
            Line::Publish(v) => {
                let to = put_word(buffer, at, b"publish");
                let to = put_value(buffer, to, v);
                put_feed(buffer, to)
            }
            Line::Refused(number) => put_counted(buffer, at, b"refused", number as u32),
            Line::Table(number, entry) => {
                let to = put_word(buffer, at, b"table");
                let to = put_number(buffer, to, number as u32);
                let to = put_number(buffer, to, entry);
                put_feed(buffer, to)
            }
            Line::End(steps) => put_counted(buffer, at, b"end", steps),
            Line::Limit => put_word(buffer, at, b"limit\n"),
            Line::Short => put_word(buffer, at, b"short\n"),
            Line::Long => put_word(buffer, at, b"long\n"),
        }
    }
}
