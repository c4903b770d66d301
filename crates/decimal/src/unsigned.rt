// A number in base ten.
ghost use Rattle.std.specs.Prelude.{◌+◌, ◌≤◌, length};
ghost use Rattle.job.specs.Decimal.{decimal_digits, decimal};
ghost use Rattle.decimal.specs.Written.{Written};

// So many digits at most: the front ones first, then the last.
fn put_digits(buffer: &mut [u8], at: usize, most: usize, n: u32) -> usize
    requires { at + length (decimal_digits most n) ≤ length buffer.old }
    ensures { Written most buffer.old at (decimal_digits most n) buffer.new result }
{
    if most == 0 {
        return at;
    }
    if n < 10 {
        buffer[at] = b'0' + n as u8;
        return at + 1;
    }
    let last = put_digits(buffer, at, most - 1, n / 10);
    buffer[last] = b'0' + (n % 10) as u8;
    last + 1
}

// Most numbers have one digit or two, which are put without a call.
pub fn put_decimal(buffer: &mut [u8], at: usize, n: u32) -> usize
    requires { at + length (decimal n) ≤ length buffer.old }
    ensures { Written 10 buffer.old at (decimal n) buffer.new result }
{
    if 100 <= n {
        return put_digits(buffer, at, 20, n);
    }
    if 10 <= n {
        buffer[at] = b'0' + (n / 10) as u8;
        buffer[at + 1] = b'0' + (n % 10) as u8;
        return at + 2;
    }
    buffer[at] = b'0' + n as u8;
    at + 1
}
