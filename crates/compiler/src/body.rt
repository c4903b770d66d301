// A body and its sink: "a definition's body goes toward return, the goal toward publish".
ghost use Rattle.std.specs.Prelude.{◌≡◌, ◌+◌, ◌*◌, ◌<◌};
ghost use Rattle.std.proofs.lemmas.List.Edits.{sets};
ghost use Rattle.job.specs.Words.{head_words, node_words};
ghost use Rattle.compiler.specs.Body.{sink_of, BodyAcceptedInSome, WhereBodyAccepted, compiled_with_sink, stored_body};

use crate::expression::{Compiled, compile_expression};
use crate::plan::ExpressionPlan;
use crate::store::put;
use entries::parts::EntryParts;
use entries::scope::Scope;
use job::bounds::DEPTH_LIMIT;
use job::dag::{PUBLISH, RETURN, WORDS};

// Toward what a body goes.
#[derive(Clone, Copy)]
pub enum SinkKind {
    Return,
    Publish,
}

// Stores the sink of the goal, or of a definition.
#[tactic(auto, unfolding(crate::specs::Body::sink_of, job::specs::Words::node_words, job::specs::Words::param_words))]
fn put_sink(dag: &mut [u32; WORDS], node: usize, sink: SinkKind)
    requires { node < 1022 }
    ensures { dag.new ≡ sets dag.old (head_words + 12 * node) (node_words (sink_of sink)) }
{
    match sink {
        SinkKind::Return => put(dag, node, [RETURN, 0, 0, 0]),
        SinkKind::Publish => put(dag, node, [PUBLISH, 0, 0, 0]),
    }
}

// Stores the nodes of the body at entry `at`, numbered from `node`, and behind them its sink, whose number `last` is known.
pub fn compile_body(
    parts: EntryParts,
    dag: &mut [u32; WORDS],
    scope: Scope,
    at: usize,
    node: usize,
    last: usize,
    sink: SinkKind,
) -> Compiled
    requires { BodyAcceptedInSome parts.kinds.now parts.operands.now scope at node last }
    ensures { WhereBodyAccepted parts.entry.kinds.now parts.entry.operands.now scope at node last
        (λ e. (result ≡ compiled_with_sink e node) × (dag.new ≡ stored_body e sink node dag.old)) }
{
    let plan = ExpressionPlan {
        scope,
        first: node,
        next: last as u32,
    };
    let body = compile_expression(parts, dag, DEPTH_LIMIT, at, plan);
    put_sink(dag, last, sink);
    Compiled {
        at: body.at,
        node: last + 1,
        root: body.root,
    }
}
