// The rules of the tokens, all together: each row is looked at once, and one that is not in use only for being blank.
ghost use Rattle.std.specs.Prelude.{◌≡◌, true, ℕ, ◌<◌, ◌≤◌, eqb, length};
ghost use Rattle.job.specs.Test.{◌and◌, for_all, all_from, distinct, once};
ghost use Rattle.job.specs.Node.{dag_holds};
ghost use Rattle.job.specs.Words.{dag_of};
ghost use Rattle.model.specs.Machine.Blank.{token_at, token_is_blank};
ghost use Rattle.model.specs.Machine.Rules.{rest_is_blank, open_handles};
ghost use Rattle.model.specs.declared.record.Machine.{Machine};
ghost use Rattle.record.specs.Holds.{Codes};
ghost use Rattle.coded.specs.WordTests.{token_coded};
ghost use Rattle.row_rules.specs.ValuesFit.{ValuesFit};
ghost use Rattle.row_rules.specs.RowRules.{token_rule};
ghost use Rattle.order_rules.specs.OrderCounts.{named_by_orders};

use crate::handles::all_differ;
use coded::word_tests::token_coded;
use job::dag::{NODE_COUNT, WORDS};
use job::wide::wide;
use model::record::Machine;
use order_rules::order::{OrderCounts, counts_agree, unnamed_from};
use reach::marks::few_or_all;
use record::layout::CALLED_STATE;
use record::token::{node, state, state_number};
use row_rules::blank::{token_is_blank, tokens_are_blank};
use row_rules::chain::is_free;
use row_rules::node::at_node;
use row_rules::range::token_in_range;

// The words and the rules of a token that is in use.
fn token_holds(w: &[u32; Machine::WORDS], p: usize, dag: &[u32; WORDS]) -> bool
    requires { (p < 64) × (dag_holds (dag_of dag.now) ≡ true) }
    ensures { (result ≡ true → token_coded w.now p ≡ true)
        × ((m : Machine) → ValuesFit w.now m → result ≡ token_rule (dag_of dag.now) m (token_at m.tokens p)) }
{
    let at = node(w, p);
    at < dag[NODE_COUNT]
        && token_coded(w, p) & token_in_range(w, p) & at_node(w, p, wide(at), dag) & is_free(w, p)
}

// A place that is not in use: blank, and named by no order.
fn is_vacant(w: &[u32; Machine::WORDS], p: usize, queue: u8, waits: u8, timers: u8) -> bool
    requires { p < 64 }
    ensures { (result ≡ true → token_coded w.now p ≡ true)
        × ((m : Machine) → Codes w.now m
        → result ≡ ((eqb queue 0 and eqb waits 0 and eqb timers 0) and token_is_blank (token_at m.tokens p))) }
{
    (queue == 0) & (waits == 0) & (timers == 0) & token_is_blank(w, p)
}

// How many handles a token in that state has.
fn handles_of(kind: u32) -> usize
    ensures { (result ≡ once (eqb kind 3)) × (result ≤ 1) }
{
    usize::from(kind == CALLED_STATE)
}

// The marks say which tokens are in use, the counts how often the orders name each place. Open handles are gathered on the way. Where few
// places are in use, the words of the others are tested together.
pub(crate) fn tokens_hold(
    w: &[u32; Machine::WORDS],
    used: &[bool; Machine::TOKENS],
    dag: &[u32; WORDS],
    counts: &OrderCounts,
) -> bool
    requires { dag_holds (dag_of dag.now) ≡ true }
    ensures { (result ≡ true → (p : ℕ) → p < 64 → token_coded w.now p ≡ true)
        × ((m : Machine) → ValuesFit w.now m → length used.now ≡ 64
        → result ≡ (((for_all (token_rule (dag_of dag.now) m) m.tokens and rest_is_blank token_is_blank used.now m.tokens)
        and all_from (named_by_orders counts.now.queue counts.now.waits counts.now.timers) 0 m.tokens)
        and distinct (open_handles m.tokens))) }
{
    let mut handles = [0u32; Machine::TOKENS];
    let mut count: usize = 0;
    let mut ok = true;
    let end = few_or_all(used);
    for i in 0..end {
        if used[i] {
            let kind = state(w, i);
            ok &= token_holds(w, i, dag)
                & counts_agree(kind, counts.queue[i], counts.waits[i], counts.timers[i]);
            handles[count] = state_number(w, i);
            count += handles_of(kind);
        } else {
            ok &= is_vacant(w, i, counts.queue[i], counts.waits[i], counts.timers[i]);
        }
    }
    let rest = unnamed_from(counts, end) & tokens_are_blank(w, end);
    ok & rest & all_differ(&handles[..count])
}
