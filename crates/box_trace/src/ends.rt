//! Which conclusions of a round give the ends of a slot's fact.
ghost use Rattle.std.specs.Prelude.{◌≡◌, ◌⊎◌, ◌↔◌, IsTrue};
ghost use Rattle.facts.specs.declared.fact.Fact.{Fact};
ghost use Rattle.facts.specs.Order.{slot_of};
ghost use Rattle.box_trace.specs.Ends.{IsLow, IsHigh, IsLowBy, IsHighBy};

use facts::Fact;
use interval::Interval;

/// What an instance, known by its number, concludes.
#[derive(Clone, Copy, Debug)]
pub(crate) struct Found {
    pub(crate) instance: usize,
    pub(crate) fact: Fact,
}

/// The conclusions that give a slot's fact its ends: the one with the greatest lower end, and the
/// one with the least upper end.
#[derive(Clone, Copy, Debug)]
pub(crate) struct Ends {
    pub(crate) low: Found,
    pub(crate) high: Found,
}

fn is_low(i: Interval, j: Interval) -> bool
    ensures { IsTrue result ↔ IsLow i j }
{
    i.lo().is_at_most(j.lo())
}

fn is_high(i: Interval, j: Interval) -> bool
    ensures { IsTrue result ↔ IsHigh i j }
{
    j.hi().is_at_most(i.hi())
}

// Whether the first fact's lower end isn't above the second's, where they stand on one slot.
fn is_low_by(f: &Fact, g: &Fact) -> bool
    ensures { IsTrue result ↔ IsLowBy f.now g.now }
{
    match (*f, *g) {
        (Fact::Bnd(_, i), Fact::Bnd(_, j)) => is_low(i, j),
        (Fact::Abs(_, s), Fact::Abs(_, t)) => is_low(s.interval(), t.interval()),
        (Fact::Rel(_, _, Some(d)), Fact::Rel(_, _, Some(e))) => is_low(d.interval(), e.interval()),
        (Fact::Rel(_, _, None), Fact::Rel(_, _, Some(_))) => false,
        (Fact::Fix(_, k), Fact::Fix(_, n)) => k.exponent() <= n.exponent(),
        _ => true,
    }
}

// Whether the first fact's upper end isn't below the second's.
fn is_high_by(f: &Fact, g: &Fact) -> bool
    ensures { IsTrue result ↔ IsHighBy f.now g.now }
{
    match (*f, *g) {
        (Fact::Bnd(_, i), Fact::Bnd(_, j)) => is_high(i, j),
        (Fact::Abs(_, s), Fact::Abs(_, t)) => is_high(s.interval(), t.interval()),
        (Fact::Rel(_, _, Some(d)), Fact::Rel(_, _, Some(e))) => is_high(d.interval(), e.interval()),
        (Fact::Rel(_, _, None), Fact::Rel(_, _, Some(_))) => false,
        _ => true,
    }
}

fn lower(best: Found, found: Found) -> Found
    ensures chosen { (result ≡ best) ⊎ (result ≡ found) }
    ensures found { IsLowBy found.fact result.fact }
    ensures before { (c : Fact) → slot_of c ≡ slot_of best.fact
        → slot_of best.fact ≡ slot_of found.fact → IsLowBy c best.fact → IsLowBy c result.fact }
{
    if is_low_by(&found.fact, &best.fact) {
        best
    } else {
        found
    }
}

fn upper(best: Found, found: Found) -> Found
    ensures chosen { (result ≡ best) ⊎ (result ≡ found) }
    ensures found { IsHighBy found.fact result.fact }
    ensures before { (c : Fact) → slot_of c ≡ slot_of best.fact
        → slot_of best.fact ≡ slot_of found.fact → IsHighBy c best.fact → IsHighBy c result.fact }
{
    if is_high_by(&found.fact, &best.fact) {
        best
    } else {
        found
    }
}

impl Ends {
    /// One conclusion gives both.
    pub(crate) fn of(found: Found) -> Ends
        ensures low { result.low ≡ found }
        ensures high { result.high ≡ found }
    {
        Ends {
            low: found,
            high: found,
        }
    }

    /// The ends with one conclusion more.
    pub(crate) fn with(self, found: Found) -> Ends
        ensures low { (result.low ≡ self.low) ⊎ (result.low ≡ found) }
        ensures high { (result.high ≡ self.high) ⊎ (result.high ≡ found) }
        ensures found { IsLowBy found.fact result.low.fact × IsHighBy found.fact result.high.fact }
        ensures lower { (c : Fact) → slot_of c ≡ slot_of self.low.fact
            → slot_of self.low.fact ≡ slot_of found.fact → IsLowBy c self.low.fact
            → IsLowBy c result.low.fact }
        ensures upper { (c : Fact) → slot_of c ≡ slot_of self.high.fact
            → slot_of self.high.fact ≡ slot_of found.fact → IsHighBy c self.high.fact
            → IsHighBy c result.high.fact }
    {
        Ends {
            low: lower(self.low, found),
            high: upper(self.high, found),
        }
    }
}
