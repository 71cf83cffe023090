// From values to absolute values, and back.
ghost use Rattle.std.specs.Prelude.{◌≡◌, slice_get};
ghost use Rattle.dyadic.specs.Ends.{bound_of};
ghost use Rattle.theorem_arith.specs.Sizes.{size_rule, around, value_rule, is_less, is_above};
ghost use Rattle.theorem_arith.specs.Sizes.{is_below, signed_fact, sign_rule, absolute_value_rule};
ghost use Rattle.theorem_arith.specs.Sizes.{abs_or_void, void_if_none, is_absolute_value};
ghost use Rattle.theorem_arith.specs.Sizes.{size_of_value_rule};

use dyadic::End;
use expr_dag::Dag;
use facts::{Fact, Size, Slot};
use fx_model::{ExprId, Node};
use interval::{Interval, opposite};

/// From BND(x, I): ABS(x, abs I) (Gappa: `abs_of_bnd`).
#[inline(always)]
pub fn rule_11(dag: &Dag, premises: &[Fact], target: Slot) -> Option<Fact>
    ensures concludes { result ≡ size_rule dag.now premises.now target }
{
    let [first] = premises else {
        return None;
    };
    match (*first, target) {
        (Fact::Bnd(x, i), Slot::Abs(e)) => {
            if x == e && dag.knows(x) {
                Fact::abs(e, Size::within(i.abs()))
            } else {
                None
            }
        }
        _ => None,
    }
}

/// From ABS(x, [p, q]): BND(x, [-q, q]) (Gappa: `bnd_of_abs`).
#[inline(always)]
pub fn rule_12(dag: &Dag, premises: &[Fact], target: Slot) -> Option<Fact>
    ensures concludes { result ≡ value_rule dag.now premises.now target }
{
    let [first] = premises else {
        return None;
    };
    match (*first, target) {
        (Fact::Abs(x, s), Slot::Bnd(e)) => {
            if x == e && dag.knows(x) {
                Fact::bnd(e, both_signs(s))
            } else {
                None
            }
        }
        _ => None,
    }
}

// [-q, q].
fn both_signs(size: Size) -> Option<Interval>
    ensures { result ≡ around size }
{
    Interval::new(size.interval().neg().lo(), size.interval().hi())
}

/// From BND(x, I), ABS(x, [p, q]): BND(x, [p, q]) where the lower end of I is above -p; BND(x, [-q,
/// -p]) where the upper end is below p; VOID where both (Gappa: `bnd_of_bnd_abs`).
#[inline(always)]
pub fn rule_13(dag: &Dag, premises: &[Fact], target: Slot) -> Option<Fact>
    ensures concludes { result ≡ sign_rule dag.now premises.now target }
{
    let [first, second] = premises else {
        return None;
    };
    match (*first, *second, target) {
        (Fact::Bnd(x, i), Fact::Abs(y, s), Slot::Bnd(e)) => {
            if x == y && dag.knows(x) && x == e {
                with_sign(e, s, exceeds(i, s), falls_short(i, s))
            } else {
                None
            }
        }
        (Fact::Bnd(x, i), Fact::Abs(y, s), Slot::Void) => {
            if x == y && dag.knows(x) && exceeds(i, s) && falls_short(i, s) {
                Some(Fact::Void)
            } else {
                None
            }
        }
        _ => None,
    }
}

fn with_sign(x: ExprId, size: Size, above: bool, below: bool) -> Option<Fact>
    ensures { result ≡ signed_fact x size above below }
{
    match (above, below) {
        (true, true) => Some(Fact::Void),
        (true, false) => Some(Fact::Bnd(x, size.interval())),
        (false, true) => Some(Fact::Bnd(x, size.interval().neg())),
        (false, false) => None,
    }
}

// Whether the first end is below the second.
fn is_less(a: End, b: End) -> bool
    ensures { result ≡ is_less (bound_of a) (bound_of b) }
{
    !b.is_at_most(a)
}

// Whether the lower end of I is above -p.
fn exceeds(range: Interval, size: Size) -> bool
    ensures { result ≡ is_above range size }
{
    is_less(opposite(size.interval().lo()), range.lo())
}

// Whether the upper end of I is below p.
fn falls_short(range: Interval, size: Size) -> bool
    ensures { result ≡ is_below range size }
{
    is_less(range.hi(), size.interval().lo())
}

/// From ABS(x, I): BND(|x|, I).
#[inline(always)]
pub fn rule_14(dag: &Dag, premises: &[Fact], target: Slot) -> Option<Fact>
    ensures concludes { result ≡ absolute_value_rule dag.now premises.now target }
{
    let [first] = premises else {
        return None;
    };
    match (*first, target) {
        (Fact::Abs(x, s), Slot::Bnd(e)) => {
            if dag.is_at(e, Node::Abs(x)) {
                Some(Fact::Bnd(e, s.interval()))
            } else {
                None
            }
        }
        _ => None,
    }
}

/// From BND(|x|, I): ABS(x, I); VOID where I lies below 0.
#[inline(always)]
pub fn rule_15(dag: &Dag, premises: &[Fact], target: Slot) -> Option<Fact>
    ensures concludes { result ≡ size_of_value_rule dag.now premises.now target }
{
    let [first] = premises else {
        return None;
    };
    match (*first, target) {
        (Fact::Bnd(y, i), Slot::Abs(e)) => {
            if dag.is_at(y, Node::Abs(e)) {
                Some(size_or_void(e, Size::within(i)))
            } else {
                None
            }
        }
        (Fact::Bnd(y, i), Slot::Void) => {
            if is_absolute_value(dag, y) {
                void_without(Size::within(i))
            } else {
                None
            }
        }
        _ => None,
    }
}

fn size_or_void(x: ExprId, size: Option<Size>) -> Fact
    ensures { result ≡ abs_or_void x size }
{
    match size {
        Some(s) => Fact::Abs(x, s),
        None => Fact::Void,
    }
}

fn void_without(size: Option<Size>) -> Option<Fact>
    ensures { result ≡ void_if_none size }
{
    match size {
        Some(_) => None,
        None => Some(Fact::Void),
    }
}

fn is_absolute_value(dag: &Dag, x: ExprId) -> bool
    ensures { result ≡ is_absolute_value (slice_get dag.now x.0) }
{
    matches!(dag.get(x), Some(Node::Abs(_)))
}
