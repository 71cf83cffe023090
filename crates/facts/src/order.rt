//! The order of facts, and their meet.
ghost use Rattle.std.specs.Prelude.{◌≡◌, ◌↔◌, IsTrue, IsNone};
ghost use Rattle.facts.specs.Parts.{common_size, common_error};
ghost use Rattle.facts.specs.Order.{slot_of, bounded, sized, IsWithinError, IsStronger, meet_of};
ghost use Rattle.facts.specs.Order.{AreUnlike};

use crate::fact::{Fact, Slot};
use crate::place::FixPlace;
use crate::relative::RelativeError;
use crate::size::Size;
use fx_model::ExprId;
use interval::Interval;

/// The slot that a fact stands on.
pub fn slot(f: &Fact) -> Slot
    ensures { result ≡ slot_of f.now }
{
    match *f {
        Fact::Bnd(x, _) => Slot::Bnd(x),
        Fact::Abs(x, _) => Slot::Abs(x),
        Fact::Rel(x, y, _) => Slot::Rel(x, y),
        Fact::Fix(x, _) => Slot::Fix(x),
        Fact::Nzr(x) => Slot::Nzr(x),
        Fact::Void => Slot::Void,
    }
}

/// Whether the first fact is stronger than the second, or they are equal.
#[inline(always)]
pub fn stronger(a: &Fact, b: &Fact) -> bool
    ensures { IsTrue result ↔ IsStronger a.now b.now }
{
    match (*a, *b) {
        (Fact::Void, _) => true,
        (Fact::Bnd(x, i), Fact::Bnd(y, j)) => x == y && i.inside(j),
        (Fact::Abs(x, s), Fact::Abs(y, t)) => x == y && s.interval().inside(t.interval()),
        (Fact::Rel(x, z, d), Fact::Rel(y, w, e)) => x == y && z == w && is_within_error(d, e),
        (Fact::Fix(x, k), Fact::Fix(y, n)) => x == y && n.exponent() <= k.exponent(),
        (Fact::Nzr(x), Fact::Nzr(y)) => x == y,
        _ => false,
    }
}

// Whether the first relative errors lie within the second; that both sides are 0 lies within all.
fn is_within_error(d: Option<RelativeError>, e: Option<RelativeError>) -> bool
    ensures { IsTrue result ↔ IsWithinError d e }
{
    match (d, e) {
        (None, _) => true,
        (Some(_), None) => false,
        (Some(d), Some(e)) => d.interval().inside(e.interval()),
    }
}

/// The meet of two facts. None exactly where neither is VOID and the slots differ.
#[inline(always)]
pub fn meet(a: &Fact, b: &Fact) -> Option<Fact>
    ensures is { result ≡ meet_of a.now b.now }
    ensures none { IsNone result ↔ AreUnlike a.now b.now }
{
    match (*a, *b) {
        (Fact::Void, _) => Some(Fact::Void),
        (_, Fact::Void) => Some(Fact::Void),
        (Fact::Bnd(x, i), Fact::Bnd(y, j)) => {
            if x == y {
                Some(bounded_by(x, i.meet(j)))
            } else {
                None
            }
        }
        (Fact::Abs(x, s), Fact::Abs(y, t)) => {
            if x == y {
                Some(sized_by(x, common_sizes(s, t)))
            } else {
                None
            }
        }
        (Fact::Rel(x, z, d), Fact::Rel(y, w, e)) => {
            if x == y && z == w {
                Some(Fact::Rel(x, z, common_errors(d, e)))
            } else {
                None
            }
        }
        (Fact::Fix(x, k), Fact::Fix(y, n)) => {
            if x == y {
                Some(Fact::Fix(x, k.greater(n)))
            } else {
                None
            }
        }
        (Fact::Nzr(x), Fact::Nzr(y)) => { if x == y { Some(Fact::Nzr(x)) } else { None } }
        _ => None,
    }
}

// The fact of an interval, or VOID where there is none.
fn bounded_by(x: ExprId, part: Option<Interval>) -> Fact
    ensures { result ≡ bounded x part }
{
    match part {
        Some(i) => Fact::Bnd(x, i),
        None => Fact::Void,
    }
}

fn sized_by(x: ExprId, part: Option<Size>) -> Fact
    ensures { result ≡ sized x part }
{
    match part {
        Some(s) => Fact::Abs(x, s),
        None => Fact::Void,
    }
}

fn common_sizes(s: Size, t: Size) -> Option<Size>
    ensures { result ≡ common_size s t }
{
    match s.interval().meet(t.interval()) {
        Some(part) => Size::new(part),
        None => None,
    }
}

fn common_errors(d: Option<RelativeError>, e: Option<RelativeError>) -> Option<RelativeError>
    ensures { result ≡ common_error d e }
{
    match (d, e) {
        (Some(d), Some(e)) => common_part(d, e),
        _ => None,
    }
}

fn common_part(d: RelativeError, e: RelativeError) -> Option<RelativeError>
    ensures { result ≡ common_error (Some d) (Some e) }
{
    match d.interval().meet(e.interval()) {
        Some(part) => RelativeError::new(part),
        None => None,
    }
}
