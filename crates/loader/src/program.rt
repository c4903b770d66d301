// An accepted program: the bodies of its definitions, its goal, and the dag's head.
ghost use Rattle.std.specs.Prelude.{◌≡◌, ◌≤◌, length};
ghost use Rattle.job.specs.Entry.{entries};
ghost use Rattle.job.specs.Read.{read_entries};
ghost use Rattle.reader.specs.Definition.{read_definition_list};
ghost use Rattle.loader.specs.ProgramStored.{DefinitionsRead, Accepts, place_behind, stored_definitions, stored_program};

use crate::head;
use compiler::body;
use compiler::body::SinkKind;
use entries::parts::EntryParts;
use entries::scope;
use job::dag::WORDS;

// The first entry and the first node behind what is compiled.
#[derive(Clone, Copy)]
pub(crate) struct Place {
    pub at: usize,
    pub node: usize,
}

// Stores the bodies of the definitions whose sizes these are, and their words of the head. A body's sink is its last node.
fn compile_definitions(parts: EntryParts, dag: &mut [u32; WORDS], sizes: &[u32]) -> Place
    requires count_bound { length sizes.now ≤ 32 }
    requires definitions_read { DefinitionsRead
        (read_definition_list (length sizes.now) 0 (entries parts.kinds.now parts.operands.now)) sizes.now }
    ensures value { result ≡ place_behind
        (read_definition_list (length sizes.now) 0 (entries parts.entry.kinds.now parts.entry.operands.now)) }
    ensures dag_after { dag.new ≡ stored_definitions
        (read_definition_list (length sizes.now) 0 (entries parts.entry.kinds.now parts.entry.operands.now)) dag.old }
{
    let mut at = 0;
    let mut node = 0;
    for (i, &size) in sizes.iter().enumerate() {
        let formals = parts.operand(at);
        let last = node + size as usize - 1;
        let scope = scope::of_formals(formals);
        let body = body::compile_body(parts, dag, scope, at + 1, node, last, SinkKind::Return);
        head::put_definition(dag, i, body.root, formals);
        at = body.at;
        node = body.node;
    }
    Place { at, node }
}

// Stores the dag of a program. Its check found the sizes of its definitions and its number of nodes: each body is walked twice, checked
// and compiled.
pub(crate) fn compile_program(
    parts: EntryParts,
    dag: &mut [u32; WORDS],
    sizes: &[u32],
    nodes: usize,
)
    requires count_bound { length sizes.now ≤ 32 }
    requires accepts { Accepts (read_entries (length sizes.now) (entries parts.kinds.now parts.operands.now)) nodes sizes.now }
    ensures { dag.new ≡ stored_program
        (read_entries (length sizes.now) (entries parts.entry.kinds.now parts.entry.operands.now)) dag.old }
{
    let before = compile_definitions(parts, dag, sizes);
    let scope = scope::of_formals(0);
    let goal = body::compile_body(
        parts,
        dag,
        scope,
        before.at,
        before.node,
        nodes - 1,
        SinkKind::Publish,
    );
    head::put_sizes(dag, goal.node as u32, sizes.len() as u32, goal.root);
}
