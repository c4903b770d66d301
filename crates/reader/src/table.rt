// The whole table: its length and its sizes, then its entries.
ghost use Rattle.std.specs.Prelude.{◌≡◌, ◌+◌, ◌*◌, ◌<◌};
ghost use Rattle.std.proofs.lemmas.List.Edits.{sets};
ghost use Rattle.job.specs.Read.{read_table};
ghost use Rattle.reader.specs.Table.{tested, sizes_kept};

use crate::program;
use entries::parts::EntryParts;
use entries::refusal::{Refused, TableRefusal};
use job::bounds::{ENTRY_LIMIT, MOST_DEFINITIONS};

// Two bytes, the lower first.
pub fn half(low: u8, high: u8) -> usize
    ensures { (result ≡ low + 256 * high) × (result < 65536) }
{
    usize::from(u16::from_le_bytes([low, high]))
}

// Tests a table: the number of its dag's nodes. The numbers of nodes of the definitions that are read before the first refusal are kept.
pub fn check_table(table: &[u8], sizes: &mut [u32; MOST_DEFINITIONS]) -> Result<usize, Refused>
    ensures value { result ≡ tested (read_table table.now) }
    ensures sizes_after { sizes.new ≡ sets sizes.old 0 (sizes_kept table.now) }
{
    let uneven = Refused {
        why: TableRefusal::Length,
        entry: 0,
    };
    let outside = Refused {
        why: TableRefusal::Sizes,
        entry: 0,
    };
    if table.len() < 4 {
        return Err(uneven);
    }
    let definitions = half(table[0], table[1]);
    let n = half(table[2], table[3]);
    if table.len() != 4 + 5 * n {
        return Err(uneven);
    }
    if MOST_DEFINITIONS < definitions {
        return Err(outside);
    }
    if n < 1 {
        return Err(outside);
    }
    if ENTRY_LIMIT < n {
        return Err(outside);
    }
    let e = 4 + n;
    let parts = EntryParts {
        kinds: &table[4..e],
        operands: &table[e..],
    };
    let program = program::check_program(parts, &mut sizes[..definitions])?;
    Ok(program.nodes)
}
