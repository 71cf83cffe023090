//! How far a proposition was read.

ghost use Rattle.std.specs.Prelude.{◌≡◌};
ghost use Rattle.script_words.specs.Named.{word_of};
ghost use Rattle.script_claims.specs.Parts as spec;

use crate::claim::Claim;
use fx_model::ExprId;
use literal_order::Written;
use script_words::class::Symbol;
use script_words::words::Word;

/// What of a proposition stands before the word in hand.
#[derive(Clone, Copy, PartialEq, Eq, Debug)]
pub enum Part {
    /// Its first expression has not ended.
    Nothing,
    /// `x -/`.
    Against(ExprId),
    /// `x in`.
    In(ExprId),
    /// `x -/ y in`.
    RelativeIn(ExprId, ExprId),
    /// `x <=`.
    AtMost(ExprId),
    /// `x >=`.
    AtLeast(ExprId),
    /// `x in [a`.
    From(ExprId, Written),
    /// `x -/ y in [a`.
    RelativeFrom(ExprId, ExprId, Written),
    /// All but signs that close.
    Made(Claim),
}

impl Part {
    /// The part behind the sign that follows its first expression.
    pub fn related(self, word: Word<'_>, x: ExprId) -> Part
        ensures { result ≡ spec.relation_behind (word_of word.entry) x self }
    {
        match word {
            Word::Sign(Symbol::In) => Part::In(x),
            Word::Sign(Symbol::Against) => Part::Against(x),
            Word::Sign(Symbol::LessEqual) => Part::AtMost(x),
            Word::Sign(Symbol::GreaterEqual) => Part::AtLeast(x),
            _ => self,
        }
    }

    /// The part behind the `in` that follows its second expression.
    pub fn compared(self, y: ExprId) -> Part
        ensures { result ≡ spec.in_behind y self }
    {
        match self {
            Part::Against(x) => Part::RelativeIn(x, y),
            _ => self,
        }
    }

    /// The part behind `?`, or behind the bracket that opens a range.
    pub fn ranged(self, word: Word<'_>) -> Part
        ensures { result ≡ spec.range_opened (word_of word.entry) self }
    {
        match word {
            Word::Sign(Symbol::Ask) => self.asked(),
            _ => self,
        }
    }

    fn asked(self) -> Part
        ensures { result ≡ spec.questioned self }
    {
        match self {
            Part::In(x) => Part::Made(Claim::Asked(x)),
            Part::RelativeIn(x, y) => Part::Made(Claim::RelativeAsked(x, y)),
            _ => self,
        }
    }

    /// The part behind a bound, which is the first or the second of its range.
    pub fn bounded(self, bound: Written) -> Part
        ensures { result ≡ spec.bounded bound self }
    {
        match self {
            Part::AtMost(x) => Part::Made(Claim::Bounded(x, None, Some(bound))),
            Part::AtLeast(x) => Part::Made(Claim::Bounded(x, Some(bound), None)),
            Part::In(x) => Part::From(x, bound),
            Part::From(x, lower) => Part::Made(Claim::Bounded(x, Some(lower), Some(bound))),
            Part::RelativeIn(x, y) => Part::RelativeFrom(x, y, bound),
            Part::RelativeFrom(x, y, lower) => Part::Made(Claim::Relative(x, y, lower, bound)),
            _ => self,
        }
    }
}
