// A join's own nodes, "sequence makes assign, remove; prune makes where, remove, choke", and where it is entered.
ghost use Rattle.std.specs.Prelude.{◌≡◌, ◌+◌, ◌*◌, ◌<◌, ◌≤◌};
ghost use Rattle.std.proofs.lemmas.List.Edits.{sets};
ghost use Rattle.job.specs.Construct.{own_nodes};
ghost use Rattle.job.specs.Words.{head_words, rows_of_nodes};
ghost use Rattle.entries.specs.NamedKind.{join_of};
ghost use Rattle.compiler.specs.JoinRoot.{join_root};

use crate::plan::ExpressionPlan;
use crate::store::put;
use entries::table_kind::JoinKind;
use job::dag::{ASSIGN, CHOKE, FORK, REMOVE, WHERE, WORDS};

// The join's root, where `left` is that of its f: a sequence is entered at its f.
#[tactic(auto, unfolding(entries::specs::NamedKind::join_of, crate::specs::JoinRoot::join_root))]
pub(crate) fn join_root(join: JoinKind, plan: ExpressionPlan, left: u32) -> u32
    requires { plan.first < 1022 }
    ensures { result ≡ join_root (join_of join plan.scope.count) plan.first left }
{
    match join {
        JoinKind::Seq => left,
        JoinKind::Par | JoinKind::Prune => plan.first as u32,
    }
}

// Stores the join's own nodes: `left` and `right` are the roots of its sides.
pub(crate) fn put_own(
    dag: &mut [u32; WORDS],
    join: JoinKind,
    plan: ExpressionPlan,
    left: u32,
    right: u32,
)
    requires { plan.first + 3 ≤ 1022 }
    ensures { dag.new ≡ sets dag.old (head_words + 12 * plan.first)
        (rows_of_nodes (own_nodes (join_of join plan.scope.count) left right plan.next)) }
{
    let scope = plan.scope;
    let x = scope.count;
    let node = plan.first;
    let next = plan.next;
    match join {
        JoinKind::Par => put(dag, node, [FORK, left, right, 0]),
        JoinKind::Seq => {
            put(dag, node, [ASSIGN, x, right, 0]);
            put(dag, node + 1, [REMOVE, x, next, 0]);
        }
        JoinKind::Prune => {
            put(dag, node, [WHERE, left, right, x]);
            put(dag, node + 1, [REMOVE, x, next, 0]);
            put(dag, node + 2, [CHOKE, 0, 0, 0]);
        }
    }
}
