// What holds of all facts, for callers to cite. Nothing here is done at run time.
ghost use Rattle.std.specs.Prelude.{◌≡◌, ◌⊎◌, ◌↔◌, Option, Some, None, List};
ghost use Rattle.fx_model.specs.Fraction.{Fraction};
ghost use Rattle.fx_model.specs.Enclosure.{Lies};
ghost use Rattle.fx_model.specs.declared.ExprId.{ExprId};
ghost use Rattle.fx_model.specs.declared.Node.{Node};
ghost use Rattle.fx_model.specs.Expression.{Assignment};
ghost use Rattle.interval.specs.declared.interval.Interval.{Interval};
ghost use Rattle.interval.specs.Intervals.{range_of};
ghost use Rattle.facts.specs.declared.size.Size.{Size};
ghost use Rattle.facts.specs.declared.relative.RelativeError.{RelativeError};
ghost use Rattle.facts.specs.declared.fact.Fact.{Fact};
ghost use Rattle.facts.specs.declared.fact.Fact.TheVariants as fact;
ghost use Rattle.facts.specs.Parts.{size_within};
ghost use Rattle.facts.specs.Within.{LiesFromZero};
ghost use Rattle.facts.specs.Holds.{Holds};
ghost use Rattle.facts.specs.Order.{slot_of, IsStronger, meet_of};

/// Nothing is done. The clauses tell a caller that "stronger" is an order, in which VOID alone is
/// stronger than a fact of another slot.
pub fn stronger_is_an_order()
    ensures reflexive { (f : Fact) → IsStronger f f }
    ensures transitive { (f g h : Fact) → IsStronger f g → IsStronger g h → IsStronger f h }
    ensures antisymmetric { (f g : Fact) → IsStronger f g → IsStronger g f → f ≡ g }
    ensures on_one_slot { (f g : Fact) → IsStronger f g
        → (f ≡ fact.Void) ⊎ (slot_of f ≡ slot_of g) }
{}

/// Nothing is done. The clauses tell a caller that VOID is stronger than everything and nothing
/// else than it, and that on a pair the fact that both are 0 is stronger than each relative error,
/// and no relative error than it.
pub fn void_and_none_are_strongest()
    ensures void { (f : Fact) → IsStronger fact.Void f }
    ensures void_alone { (f : Fact) → IsStronger f fact.Void → f ≡ fact.Void }
    ensures none { (x y : ExprId) (e : Option RelativeError)
        → IsStronger (fact.Rel x y None) (fact.Rel x y e) }
    ensures none_alone { (x y : ExprId) (e : RelativeError)
        → ¬ IsStronger (fact.Rel x y (Some e)) (fact.Rel x y None) }
{}

/// Nothing is done. The clauses tell a caller that a meet is the weakest fact that is as strong as
/// both.
pub fn meet_is_the_weakest_as_strong_as_both()
    ensures left { (f g h : Fact) → meet_of f g ≡ Some h → IsStronger h f }
    ensures right { (f g h : Fact) → meet_of f g ≡ Some h → IsStronger h g }
    ensures weakest { (f g h d : Fact) → meet_of f g ≡ Some h → IsStronger d f
        → IsStronger d g → IsStronger d h }
    ensures exchanged { (f g : Fact) → meet_of f g ≡ meet_of g f }
    ensures stronger_alone { (f g : Fact) → IsStronger f g → meet_of f g ≡ Some f }
{}

/// Nothing is done. The clauses tell a caller that what holds is kept by weaker facts and by meets.
pub fn held_facts()
    ensures weaker { (nodes : List Node) (a : Assignment) (f g : Fact) → IsStronger f g
        → Holds nodes a f → Holds nodes a g }
    ensures meet { (nodes : List Node) (a : Assignment) (f g h : Fact) → meet_of f g ≡ Some h
        → Holds nodes a f → Holds nodes a g → Holds nodes a h }
{}

/// Nothing is done. The clauses tell a caller that of an interval just what is at least 0 is a
/// size.
pub fn sizes_within_an_interval()
    ensures none { (i : Interval) → (size_within i ≡ None) ↔ ((x : Fraction) → ¬ LiesFromZero i x) }
    ensures some { (i : Interval) (s : Size) → size_within i ≡ Some s → (x : Fraction)
        → Lies (range_of s.interval) x ↔ LiesFromZero i x }
{}
