// The words of a line: its first word, numbers with a space before each, and its end.
ghost use Rattle.std.specs.Prelude.{◌+◌, ◌≤◌, map, length};
ghost use Rattle.job.specs.Decimal.{decimal, signed_decimal};
ghost use Rattle.decimal.specs.Written.{Written};
ghost use Rattle.lines.specs.WordBytes.{spaced, all_spaced, line_feed};

use decimal::{signed, unsigned};

pub(crate) fn put_word(buffer: &mut [u8], at: usize, word: &[u8]) -> usize
    requires { at + length word.now ≤ length buffer.old }
    ensures { Written (length word.now) buffer.old at word.now buffer.new result }
{
    let to = at + word.len();
    buffer[at..to].copy_from_slice(word);
    to
}

pub(crate) fn put_number(buffer: &mut [u8], at: usize, n: u32) -> usize
    requires { at + 11 ≤ length buffer.old }
    ensures { Written 11 buffer.old at (spaced (decimal n)) buffer.new result }
{
    buffer[at] = b' ';
    unsigned::put_decimal(buffer, at + 1, n)
}

pub(crate) fn put_value(buffer: &mut [u8], at: usize, v: i32) -> usize
    requires { at + 12 ≤ length buffer.old }
    ensures { Written 12 buffer.old at (spaced (signed_decimal v)) buffer.new result }
{
    buffer[at] = b' ';
    signed::put_signed(buffer, at + 1, v)
}

pub(crate) fn put_value_list(buffer: &mut [u8], at: usize, values: &[i32]) -> usize
    requires { (at + 48 ≤ length buffer.old) × (length values.now ≤ 4) }
    ensures { Written 48 buffer.old at (all_spaced (map signed_decimal values.now)) buffer.new result }
{
    let mut to = at;
    for &v in values {
        to = put_value(buffer, to, v);
    }
    to
}

pub(crate) fn put_feed(buffer: &mut [u8], at: usize) -> usize
    requires { at + 1 ≤ length buffer.old }
    ensures { Written 1 buffer.old at line_feed buffer.new result }
{
    buffer[at] = b'\n';
    at + 1
}
