// The twelve words of a call's node, off its entries, stored in the dag.
ghost use Rattle.std.specs.Prelude.{◌≡◌, ◌+◌, ◌*◌, ◌<◌, ◌≤◌, length};
ghost use Rattle.std.proofs.lemmas.List.Edits.{sets};
ghost use Rattle.job.specs.Entry.{high, operand_at};
ghost use Rattle.job.specs.Words.{head_words, array_words};
ghost use Rattle.entries.specs.Parts.{Parts};
ghost use Rattle.compiler.specs.CallNodeWords.{place_words, call_node_words};

use crate::store::put_four;
use entries::parts::EntryParts;
use job::dag::{HEAD_WORDS, ROW_WORDS, WORDS};

// Kind and operand of parameter `i` of `count`, whose entries begin at `at`, or 0 and 0.
fn place_pair(parts: EntryParts, at: usize, i: usize, count: usize) -> [u32; 2]
    requires { at + count ≤ length parts.kinds.now }
    ensures { result ≡ place_words 1 i count parts.entry.kinds.now parts.entry.operands.now at }
{
    if i < count {
        [parts.kinds[at + i] as u32, parts.operand(at + i)]
    } else {
        [0, 0]
    }
}

// Stores the words of two places for parameters, from place `i` on, at word `word`: the entries of `count` parameters begin at `at`.
fn put_places(
    parts: EntryParts,
    dag: &mut [u32; WORDS],
    word: usize,
    at: usize,
    i: usize,
    count: usize,
)
    requires { (word + 4 ≤ array_words) × (i < 4) × (at + count ≤ length parts.kinds.now) }
    ensures { dag.new
        ≡ sets dag.old word (place_words 2 i count parts.entry.kinds.now parts.entry.operands.now at) }
{
    let first = place_pair(parts, at, i, count);
    let second = place_pair(parts, at, i + 1, count);
    put_four(dag, word, first[0], first[1], second[0], second[1]);
}

// "low 16 bits site, high 16 bits parameter count", or the same of a definition: stores the node of the call at `at`.
pub(crate) fn put_call(parts: EntryParts, dag: &mut [u32; WORDS], node: usize, at: usize, next: u32)
    requires { (node < 1022)
        × (at + 1 + high (operand_at parts.operands.now at) ≤ length parts.kinds.now) }
    ensures { dag.new ≡ sets dag.old (head_words + 12 * node)
        (call_node_words parts.entry.kinds.now parts.entry.operands.now at next) }
{
    let head = parts.operand(at);
    let n = (head / 65536) as usize;
    let base = HEAD_WORDS + ROW_WORDS * node;
    put_four(
        dag,
        base,
        parts.kinds[at] as u32,
        head % 65536,
        next,
        head / 65536,
    );
    put_places(parts, dag, base + 4, at + 1, 0, n);
    put_places(parts, dag, base + 8, at + 1, 2, n);
}
