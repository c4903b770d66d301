// How an expression is compiled, and how the two sides of a join are.
ghost use Rattle.std.specs.Prelude.{◌≡◌, ◌<◌, true, length};
ghost use Rattle.job.specs.Entry.{is_binder};
ghost use Rattle.entries.specs.NamedKind.{join_meant, join_of};
ghost use Rattle.entries.specs.Scope.{ForEvery};
ghost use Rattle.compiler.specs.PlanSides.{PlansLeft, PlansRight};

use entries::scope;
use entries::scope::Scope;
use entries::table_kind::JoinKind;

// The variables in scope, the expression's first node, and the node toward which it goes.
#[derive(Clone, Copy)]
pub(crate) struct ExpressionPlan {
    pub scope: Scope,
    pub first: usize,
    pub next: u32,
}

// f's nodes follow the join's own: "f toward assign(x)", "left is f toward remove(x)".
pub(crate) fn left_plan(join: JoinKind, plan: ExpressionPlan) -> ExpressionPlan
    requires first_bound { plan.first < 1022 }
    requires room { is_binder (join_meant join) ≡ true → plan.scope.count < 8 }
    ensures { ForEvery plan.scope (λ l. PlansLeft (join_of join (length l)) l plan.first plan.next result) }
{
    let scope = plan.scope;
    let first = plan.first;
    match join {
        JoinKind::Par => ExpressionPlan {
            scope,
            first: first + 1,
            next: plan.next,
        },
        JoinKind::Seq => ExpressionPlan {
            scope,
            first: first + 2,
            next: first as u32,
        },
        JoinKind::Prune => ExpressionPlan {
            scope: scope::bind(scope, scope.count),
            first: first + 3,
            next: first as u32 + 1,
        },
    }
}

// g's nodes follow f's, and so begin at `first`: "g toward remove(x)", "right is g toward choke".
pub(crate) fn right_plan(join: JoinKind, plan: ExpressionPlan, first: usize) -> ExpressionPlan
    requires first_bound { plan.first < 1022 }
    requires room { is_binder (join_meant join) ≡ true → plan.scope.count < 8 }
    ensures { ForEvery plan.scope (λ l. PlansRight (join_of join (length l)) l plan.first first plan.next result) }
{
    let scope = plan.scope;
    match join {
        JoinKind::Par => ExpressionPlan {
            scope,
            first,
            next: plan.next,
        },
        JoinKind::Seq => ExpressionPlan {
            scope: scope::bind(scope, scope.count),
            first,
            next: plan.first as u32 + 1,
        },
        JoinKind::Prune => ExpressionPlan {
            scope,
            first,
            next: plan.first as u32 + 2,
        },
    }
}
