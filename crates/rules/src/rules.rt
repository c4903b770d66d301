// The index rules of a dag and a record, all together.
ghost use Rattle.rules.specs.Tested.{Tested};

use crate::cells::cells_hold;
use crate::tokens::tokens_hold;
use dag_rules::dag::dag_holds;
use job::dag::WORDS;
use model::record::Machine;
use order_rules::order::{OrderCounts, order_counts};
use reach::used::Marks;
use record::order::{CallOrder, Queue, WaitOrder};
use row_rules::range::sizes_in_range;

// "14: dag or machine record breaks an index rule", or the words are no record's. The marks say which tokens and cells are in use.
pub fn rules_hold(w: &[u32; Machine::WORDS], dag: &[u32; WORDS], marks: &Marks) -> bool
    ensures { Tested w.now dag.now marks.now.tokens marks.now.cells result }
{
    if !dag_holds(dag) {
        return false;
    }
    let Some(queue) = order_counts::<Queue>(w) else {
        return false;
    };
    let Some(waits) = order_counts::<WaitOrder>(w) else {
        return false;
    };
    let Some(timers) = order_counts::<CallOrder>(w) else {
        return false;
    };
    let counts = OrderCounts {
        queue,
        waits,
        timers,
    };
    tokens_hold(w, &marks.tokens, dag, &counts) & cells_hold(w, &marks.cells) & sizes_in_range(w)
}
