// Rewriting hints.
ghost use Rattle.std.specs.Prelude.{◌≡◌, ◌&&◌};
ghost use Rattle.dyadic.specs.Ends.{bound_of};
ghost use Rattle.facts.specs.Conclusions.{only_if};
ghost use Rattle.rewrite_rules.specs.Rewriting.{is_under, shows, show_needs, show_row, rewritten};
ghost use Rattle.rewrite_rules.specs.Rewriting.{rewriting_rule};

use dyadic::End;
use expr_dag::Dag;
use facts::{Fact, HintRow, Need, Slot};
use fx_model::ExprId;

/// For a hint `a -> b`, from a BND, ABS, FIX or NZR fact on b, NZR of each divisor of the row, and
/// a fact for each of its constraints: the same fact on a. Nothing from more than 65535 premises.
#[inline(always)]
pub fn rule_80(dag: &Dag, hint: &HintRow, premises: &[Fact], target: Slot) -> Option<Fact>
    ensures concludes { result ≡ rewriting_rule hint.now dag.now premises.now target }
{
    let [first, others @ ..] = premises else {
        return None;
    };
    if others.len() < 65535
        && dag.know_both(hint.left, hint.right)
        && show_row(dag, hint.divisors.as_slice(), hint.needs.as_slice(), others)
    {
        rewritten(hint.left, hint.right, *first, target)
    } else {
        None
    }
}

// The fact on b, said of a.
fn rewritten(a: ExprId, b: ExprId, fact: Fact, target: Slot) -> Option<Fact>
    ensures { result ≡ rewritten a b fact target }
{
    match (fact, target) {
        (Fact::Bnd(x, i), Slot::Bnd(e)) => given(x == b && e == a, Fact::Bnd(e, i)),
        (Fact::Abs(x, s), Slot::Abs(e)) => given(x == b && e == a, Fact::Abs(e, s)),
        (Fact::Fix(x, k), Slot::Fix(e)) => given(x == b && e == a, Fact::Fix(e, k)),
        (Fact::Nzr(x), Slot::Nzr(e)) => given(x == b && e == a, Fact::Nzr(e)),
        _ => None,
    }
}

// The fact, where the test holds.
fn given(holds: bool, fact: Fact) -> Option<Fact>
    ensures { result ≡ only_if holds fact }
{
    if holds { Some(fact) } else { None }
}

// Whether the facts are NZR of each divisor, in their order, and then show the constraints.
fn show_row(dag: &Dag, divisors: &[ExprId], needs: &[Need], facts: &[Fact]) -> bool
    ensures { result ≡ show_row dag.now divisors.now needs.now facts.now }
{
    let mut rest = facts;
    for divisor in divisors {
        let [first, others @ ..] = rest else {
            return false;
        };
        if !shows(dag, Need::NotZero(*divisor), *first) {
            return false;
        }
        rest = others;
    }
    show_needs(dag, needs, rest)
}

// Whether there is one fact for each constraint, in their order, which shows it.
fn show_needs(dag: &Dag, needs: &[Need], facts: &[Fact]) -> bool
    ensures { result ≡ show_needs dag.now needs.now facts.now }
{
    let mut rest = facts;
    for need in needs {
        let [first, others @ ..] = rest else {
            return false;
        };
        if !shows(dag, *need, *first) {
            return false;
        }
        rest = others;
    }
    rest.is_empty()
}

// Whether the fact shows that the constraint holds.
fn shows(dag: &Dag, need: Need, fact: Fact) -> bool
    ensures { result ≡ shows dag.now need fact }
{
    match (need, fact) {
        (Need::NotZero(x), Fact::Nzr(z)) => dag.knows(x) && z == x,
        (Need::Below(x, end, apart), Fact::Bnd(z, j)) => {
            let same = dag.knows(x) && z == x;
            same && is_under(apart, j.hi(), end)
        }
        (Need::Above(x, end, apart), Fact::Bnd(z, j)) => {
            let same = dag.knows(x) && z == x;
            same && is_under(apart, end, j.lo())
        }
        _ => false,
    }
}

// Whether the first end is at most the second; below it, where they are to be apart.
fn is_under(apart: bool, a: End, b: End) -> bool
    ensures { result ≡ is_under apart (bound_of a) (bound_of b) }
{
    if apart {
        !b.is_at_most(a)
    } else {
        a.is_at_most(b)
    }
}
