// The variables in scope.
ghost use Rattle.std.specs.Prelude.{◌≡◌, ◌∷◌, ◌<◌, ◌≤◌, eqb};
ghost use Rattle.job.specs.Test.{for_some};
ghost use Rattle.job.specs.Syntax.{levels};
ghost use Rattle.entries.specs.Scope.{Means, ForEvery};

use job::bounds::SCOPE_LIMIT;

// Bit x of `bound` says whether number x is bound; `count` is how many are.
#[derive(Clone, Copy)]
pub struct Scope {
    pub bound: u32,
    pub count: u32,
}

// The scope of a body with so many formals: "formals from 0". The goal has none.
pub fn of_formals(n: u32) -> Scope
    requires { n ≤ 8 }
    ensures { Means result (levels n) }
{
    Scope {
        bound: (1 << n) - 1,
        count: n,
    }
}

// Is this number bound?
pub(crate) fn is_bound(scope: Scope, x: u32) -> bool
    ensures { ForEvery scope (λ l. result ≡ for_some (eqb x) l) }
{
    if SCOPE_LIMIT <= x {
        return false;
    }
    (scope.bound >> x) % 2 == 1
}

// The scope with this number bound.
pub fn bind(scope: Scope, x: u32) -> Scope
    requires { (x < 8) × (scope.count < 8) }
    ensures { ForEvery scope (λ l. Means result (x ∷ l)) }
{
    Scope {
        bound: scope.bound | (1 << x),
        count: scope.count + 1,
    }
}
