// The parts of an input: "a table (the first 4 + 5N bytes, or all if there are fewer), then 8-byte records".
ghost use Rattle.std.specs.Prelude.{◌≡◌};
ghost use Rattle.run.specs.Input.{table_end};

use reader::table::half;

// Where the table ends.
pub(crate) fn table_end(input: &[u8]) -> usize
    ensures { result ≡ table_end input.now }
{
    let [_, _, low, high, ..] = input else {
        return input.len();
    };
    (4 + 5 * half(*low, *high)).min(input.len())
}
