// Roundings and their errors.
ghost use Rattle.std.specs.Prelude.{◌≡◌, ◌≤ℤ◌, pos, negsuc};
ghost use Rattle.dyadic.specs.Ends.{bound_of};
ghost use Rattle.interval.specs.Intervals.{range_of};
ghost use Rattle.theorem_fix.specs.Shapes.{IsInLimits};
ghost use Rattle.theorem_fix.specs.Roundings.{rounded_end, rounded_interval, rounded_bound_rule};
ghost use Rattle.theorem_fix.specs.Roundings.{errors_of, error_rule, sign_of, is_sided};
ghost use Rattle.theorem_fix.specs.Roundings.{signed_errors_of, signed_error_rule};
ghost use Rattle.theorem_fix.specs.Roundings.{multiple_error_rule};

use crate::shape::{error_rounding, rounding};
use dyadic::End;
use expr_dag::Dag;
use facts::{Fact, Slot};
use fx_model::{Direction, Rounding};
use interval::Interval;
use rounding::{Sign, error_interval, round_grid};

/// From BND(x, [p, q]): BND(R(x), [R(p), R(q)]); infinite ends stay.
#[inline(always)]
pub fn rule_41(dag: &Dag, premises: &[Fact], target: Slot) -> Option<Fact>
    ensures concludes { result ≡ rounded_bound_rule dag.now premises.now target }
{
    let [first] = premises else {
        return None;
    };
    match (*first, target) {
        (Fact::Bnd(x, i), Slot::Bnd(e)) => { Fact::bnd(e, between(rounding(dag, e, x), i)) }
        _ => None,
    }
}

// The interval between the rounded ends.
fn between(rounding: Option<Rounding>, i: Interval) -> Option<Interval>
    requires { IsInLimits rounding }
    ensures { result ≡ rounded_interval rounding i }
{
    match rounding {
        Some(r) => Interval::new(end(r, i.lo()), end(r, i.hi())),
        None => None,
    }
}

// A finite end rounded; an infinite one stays.
fn end(r: Rounding, end: End) -> End
    requires low { negsuc 511 ≤ℤ r.lsb }
    requires high { r.lsb ≤ℤ pos 512 }
    ensures { bound_of result ≡ rounded_end r (bound_of end) }
{
    match end {
        End::At(x) => End::At(round_grid(r, x)),
        End::Low => End::Low,
        End::High => End::High,
    }
}

/// From BND(x): BND(R(x) - x, E), where E is what R's direction may be off, rounded outward.
#[inline(always)]
pub fn rule_42(dag: &Dag, premises: &[Fact], target: Slot) -> Option<Fact>
    ensures concludes { result ≡ error_rule dag.now premises.now target }
{
    let [first] = premises else {
        return None;
    };
    match (*first, target) {
        (Fact::Bnd(x, _), Slot::Bnd(e)) => {
            Fact::bnd(e, errors(error_rounding(dag, e, x), Sign::Unknown, None))
        }
        _ => None,
    }
}

fn errors(rounding: Option<Rounding>, sign: Sign, fix: Option<i16>) -> Option<Interval>
    requires { IsInLimits rounding }
    ensures { result ≡ errors_of rounding sign fix }
{
    match rounding {
        Some(r) => Some(error_interval(r, sign, fix)),
        None => None,
    }
}

/// From BND(x, I), where R is toward or away from zero and I tells the sign of x: BND(R(x) - x, E),
/// where E goes to one side alone.
#[inline(always)]
pub fn rule_43(dag: &Dag, premises: &[Fact], target: Slot) -> Option<Fact>
    ensures concludes { result ≡ signed_error_rule dag.now premises.now target }
{
    let [first] = premises else {
        return None;
    };
    match (*first, target) {
        (Fact::Bnd(x, i), Slot::Bnd(e)) => {
            Fact::bnd(e, signed_errors(error_rounding(dag, e, x), sign(i)))
        }
        _ => None,
    }
}

fn sign(i: Interval) -> Sign
    ensures { result ≡ sign_of (range_of i) }
{
    match (i.is_not_negative(), i.is_not_positive()) {
        (true, true) => Sign::Zero,
        (true, false) => Sign::NotNegative,
        (false, true) => Sign::NotPositive,
        (false, false) => Sign::Unknown,
    }
}

fn is_sided(dir: Direction) -> bool
    ensures { result ≡ is_sided dir }
{
    matches!(dir, Direction::Zr | Direction::Aw)
}

fn signed_errors(rounding: Option<Rounding>, sign: Sign) -> Option<Interval>
    requires { IsInLimits rounding }
    ensures { result ≡ signed_errors_of rounding sign }
{
    match (rounding, sign) {
        (_, Sign::Unknown) => None,
        (Some(r), _) => {
            if is_sided(r.dir) {
                errors(rounding, sign, None)
            } else {
                None
            }
        }
        _ => None,
    }
}

/// From FIX(x, k): BND(R(x) - x, E), where E is [0, 0] for k at least l, and else that of rule 42
/// with 2^l - 2^k for each 2^l.
#[inline(always)]
pub fn rule_44(dag: &Dag, premises: &[Fact], target: Slot) -> Option<Fact>
    ensures concludes { result ≡ multiple_error_rule dag.now premises.now target }
{
    let [first] = premises else {
        return None;
    };
    match (*first, target) {
        (Fact::Fix(x, k), Slot::Bnd(e)) => {
            Fact::bnd(
                e,
                errors(error_rounding(dag, e, x), Sign::Unknown, Some(k.exponent())),
            )
        }
        _ => None,
    }
}
