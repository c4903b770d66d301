// "Compile an expression toward a next node."
ghost use Rattle.std.specs.Prelude.{◌≡◌, ◌+◌, ◌<◌};
ghost use Rattle.compiler.specs.ExpressionCompiled.{AcceptedInSome, WhereAccepted, compiled, stored};

use crate::call::put_call;
use crate::join::{join_root, put_own};
use crate::plan::{ExpressionPlan, left_plan, right_plan};
use crate::store::put;
use entries::parts::EntryParts;
use entries::table_kind::TableKind;
use job::dag::{STOP, WORDS};

// The entry and the node behind an expression, and the node at which a token enters it.
#[derive(Clone, Copy)]
pub struct Compiled {
    pub at: usize,
    pub node: usize,
    pub root: u32,
}

// An expression of one node, which ends before entry `at`.
fn single(at: usize, node: usize) -> Compiled
    requires { node < 1022 }
    ensures { result ≡ record { at = at; node = node + 1; root = node } }
{
    Compiled {
        at: at,
        node: node + 1,
        root: node as u32,
    }
}

// Stores the nodes of the expression at entry `at`. So many levels of depth are left.
pub(crate) fn compile_expression(
    parts: EntryParts,
    dag: &mut [u32; WORDS],
    left: usize,
    at: usize,
    plan: ExpressionPlan,
) -> Compiled
    requires { AcceptedInSome left parts.kinds.now parts.operands.now plan.scope at plan.first }
    ensures { WhereAccepted left parts.entry.kinds.now parts.entry.operands.now plan.scope at plan.first
        (λ e. (result ≡ compiled e plan.first) × (dag.new ≡ stored e plan.first plan.next dag.old)) }
{
    match parts.kind_at(at).unwrap() {
        TableKind::Stop => {
            put(dag, plan.first, [STOP, 0, 0, 0]);
            single(at + 1, plan.first)
        }
        TableKind::Site | TableKind::Call => {
            let count = (parts.operand(at) / 65536) as usize;
            put_call(parts, dag, plan.first, at, plan.next);
            single(at + 1 + count, plan.first)
        }
        TableKind::Join(join) => {
            let f = compile_expression(parts, dag, left - 1, at + 1, left_plan(join, plan));
            let r = right_plan(join, plan, f.node);
            let g = compile_expression(parts, dag, left - 1, f.at, r);
            put_own(dag, join, plan, f.root, g.root);
            Compiled {
                at: g.at,
                node: g.node,
                root: join_root(join, plan, f.root),
            }
        }
        TableKind::Definition | TableKind::Variable | TableKind::Constant => unreachable!(),
    }
}
