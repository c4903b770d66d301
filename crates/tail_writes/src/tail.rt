// Document 02, request 2: "nothing but remove nodes between it and its body's return".
ghost use Rattle.std.specs.Prelude.{◌≡◌};
ghost use Rattle.job.specs.Tail.{is_tail};
ghost use Rattle.job.specs.Words.{dag_of};
ghost use Rattle.tail_writes.specs.Tail.{NodeInside};

use job::dag::{HEAD_WORDS, NEXT_NODE, NODE_COUNT, REMOVE, RETURN, ROW_WORDS, WORDS};
use job::wide::wide;

// From a remove node on: it looks at as many nodes as the dag has, at most, and stops at the first that is no remove.
fn leads_to_return(dag: &[u32; WORDS], next: usize) -> bool
    requires { NodeInside dag.now next }
    ensures { result ≡ is_tail (dag_of dag.now) next }
{
    let count = wide(dag[NODE_COUNT]);
    let mut node = next;
    let mut looks: usize = 0;
    while looks < count {
        let at = HEAD_WORDS + ROW_WORDS * node;
        let kind = dag[at];
        if kind == RETURN {
            return true;
        }
        if kind != REMOVE {
            return false;
        }
        node = wide(dag[at + NEXT_NODE]);
        looks += 1;
    }
    false
}

// From a call's next node on. Most calls have another node there, and one look tells.
pub fn is_tail(dag: &[u32; WORDS], next: usize) -> bool
    requires { NodeInside dag.now next }
    ensures { result ≡ is_tail (dag_of dag.now) next }
{
    let kind = dag[HEAD_WORDS + ROW_WORDS * next];
    if kind == RETURN {
        return true;
    }
    if kind != REMOVE {
        return false;
    }
    leads_to_return(dag, next)
}
