// Words of a dag.
ghost use Rattle.std.specs.Prelude.{◌≡◌, ◌<◌, get_or};

use job::dag::WORDS;

pub fn dag_word(dag: &[u32; WORDS], index: usize) -> u32
    requires { index < 12331 }
    ensures { result ≡ get_or dag.now index 0 }
{
    dag[index]
}
