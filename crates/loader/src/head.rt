// The words of the dag's head: number of nodes, number of definitions, the goal's root, then root and formals of each definition.
ghost use Rattle.std.specs.Prelude.{◌≡◌, [], ◌∷◌, ◌+◌, ◌*◌, ◌<◌};
ghost use Rattle.std.proofs.lemmas.List.Edits.{sets};

use job::dag::{DEFINITION_COUNT, DEFINITIONS_START, GOAL, NODE_COUNT, WORDS};

// Stores the two words of definition `i`.
pub(crate) fn put_definition(dag: &mut [u32; WORDS], i: usize, root: u32, formals: u32)
    requires { i < 32 }
    ensures { dag.new ≡ sets dag.old (3 + 2 * i) (root ∷ formals ∷ []) }
{
    let at = DEFINITIONS_START + 2 * i;
    dag[at] = root;
    dag[at + 1] = formals;
}

// Stores the first three words.
pub(crate) fn put_sizes(dag: &mut [u32; WORDS], nodes: u32, definitions: u32, goal: u32)
    ensures { dag.new ≡ sets dag.old 0 (nodes ∷ definitions ∷ goal ∷ []) }
{
    dag[NODE_COUNT] = nodes;
    dag[DEFINITION_COUNT] = definitions;
    dag[GOAL] = goal;
}
