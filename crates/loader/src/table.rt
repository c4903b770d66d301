// A job table, tested, then compiled.
ghost use Rattle.std.specs.Prelude.{◌≡◌};
ghost use Rattle.job.specs.Read.{read_table};
ghost use Rattle.loader.specs.TableLoaded.{loaded, loaded_words};

use crate::program;
use entries::parts::EntryParts;
use entries::refusal::Refused;
use job::bounds::MOST_DEFINITIONS;
use job::dag::WORDS;
use reader::table::{check_table, half};

// Loads a job table, and answers the number of its dag's nodes: its dag is written, and words past the last definition and the last node
// stay; or it is refused, and every word stays.
pub fn load(table: &[u8], dag: &mut [u32; WORDS]) -> Result<usize, Refused>
    ensures value { result ≡ loaded (read_table table.now) }
    ensures dag_after { dag.new ≡ loaded_words (read_table table.now) dag.old }
{
    let mut sizes = [0u32; MOST_DEFINITIONS];
    let nodes = check_table(table, &mut sizes)?;
    let definitions = half(table[0], table[1]);
    let e = 4 + half(table[2], table[3]);
    let parts = EntryParts {
        kinds: &table[4..e],
        operands: &table[e..],
    };
    program::compile_program(parts, dag, &sizes[..definitions], nodes);
    Ok(nodes)
}
