// A node's twelve words, stored in the dag.
ghost use Rattle.std.specs.Prelude.{◌≡◌, [], ◌∷◌, ◌++◌, ◌+◌, ◌*◌, ◌<◌, ◌≤◌, replicate};
ghost use Rattle.std.proofs.lemmas.List.Edits.{sets};
ghost use Rattle.job.specs.Words.{head_words, array_words};

use job::dag::{HEAD_WORDS, ROW_WORDS, WORDS};

// Stores four words, from word `at` on.
pub(crate) fn put_four(dag: &mut [u32; WORDS], at: usize, a: u32, b: u32, c: u32, d: u32)
    requires { at + 4 ≤ array_words }
    ensures { dag.new ≡ sets dag.old at (a ∷ b ∷ c ∷ d ∷ []) }
{
    dag[at] = a;
    dag[at + 1] = b;
    dag[at + 2] = c;
    dag[at + 3] = d;
}

// Stores the row of a node without parameters: its first four words, then zeros. The nodes' rows begin behind the dag's head of 67 words.
// No loop copies the words: by wide reads it would wait for them to be put together.
pub(crate) fn put(dag: &mut [u32; WORDS], node: usize, words: [u32; 4])
    requires { node < 1022 }
    ensures { dag.new ≡ sets dag.old (head_words + 12 * node) (words ++ replicate 8 0) }
{
    let base = HEAD_WORDS + ROW_WORDS * node;
    put_four(dag, base, words[0], words[1], words[2], words[3]);
    put_four(dag, base + 4, 0, 0, 0, 0);
    put_four(dag, base + 8, 0, 0, 0, 0);
}
