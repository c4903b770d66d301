// The index rules of a dag.
ghost use Rattle.std.specs.Prelude.{◌≡◌, ◌≤◌, get_or};
ghost use Rattle.job.specs.Test.{for_all};
ghost use Rattle.job.specs.Node.{node_holds, body_holds, dag_holds};
ghost use Rattle.job.specs.Words.{dag_of};
ghost use Rattle.dag_rules.specs.NodeWords.{root_in_dag};

use crate::node_words::row_holds;
use job::bounds::{DEFINITION_LIMIT, NODE_LIMIT, PARAMETER_LIMIT};
use job::dag::{DEFINITION_COUNT, DEFINITIONS_START, GOAL, HEAD_WORDS, NODE_COUNT, WORDS, rows};
use job::wide::wide;

// Where a definition's body begins, and its count of formals.
fn body_holds(body: &[u32; 2], nodes: u32) -> bool
    ensures { result ≡ root_in_dag nodes body.now }
{
    (body[0] < nodes) & (body[1] <= PARAMETER_LIMIT)
}

// Each definition's. All are tested, so that nothing branches.
fn bodies_hold(dag: &[u32; WORDS]) -> bool
    requires { get_or dag.now 1 0 ≤ 32 }
    ensures { result ≡ for_all (body_holds (dag_of dag.now)) (dag_of dag.now).bodies }
{
    let nodes = dag[NODE_COUNT];
    let (bodies, _) = dag[DEFINITIONS_START..HEAD_WORDS].as_chunks();
    bodies[..wide(dag[DEFINITION_COUNT])]
        .iter()
        .fold(true, |ok, body| ok & body_holds(body, nodes))
}

// The rows of the nodes, all of them too.
fn nodes_hold(dag: &[u32; WORDS]) -> bool
    requires { get_or dag.now 0 0 ≤ 1022 }
    ensures { result ≡ for_all (node_holds (dag_of dag.now)) (dag_of dag.now).nodes }
{
    let nodes = dag[NODE_COUNT];
    let bodies = dag[DEFINITION_COUNT];
    rows(dag)[..wide(nodes)]
        .iter()
        .fold(true, |ok, row| ok & row_holds(row, nodes, bodies))
}

// The counts first: within them every row lies in the array.
pub fn dag_holds(dag: &[u32; WORDS]) -> bool
    ensures { result ≡ dag_holds (dag_of dag.now) }
{
    dag[NODE_COUNT] <= NODE_LIMIT
        && dag[DEFINITION_COUNT] <= DEFINITION_LIMIT
        && (dag[GOAL] < dag[NODE_COUNT]) & bodies_hold(dag) & nodes_hold(dag)
}
