// A signed number in base ten, with a minus sign where it is negative.
ghost use Rattle.std.specs.Prelude.{◌+◌, ◌≤◌, length};
ghost use Rattle.job.specs.Decimal.{signed_decimal};
ghost use Rattle.decimal.specs.Written.{Written};

use crate::unsigned::put_decimal;

pub fn put_signed(buffer: &mut [u8], at: usize, v: i32) -> usize
    requires { at + length (signed_decimal v) ≤ length buffer.old }
    ensures { Written 11 buffer.old at (signed_decimal v) buffer.new result }
{
    if v < 0 {
        buffer[at] = b'-';
        return put_decimal(buffer, at + 1, v.unsigned_abs());
    }
    put_decimal(buffer, at, v.unsigned_abs())
}
