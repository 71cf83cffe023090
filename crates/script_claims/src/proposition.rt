//! A proposition that is being read.

ghost use Rattle.std.specs.Prelude.{◌≡◌, true};
ghost use Rattle.script_words.specs.Named.{word_of};
ghost use Rattle.script_nodes.specs.Literals as spec_literals;
ghost use Rattle.script_claims.specs.Parts as spec;
ghost use Rattle.script_claims.specs.Parts.{IsNormalPart};

use crate::numbers::exponent_size;
use crate::part::Part;
use literal_order::Written;
use script_nodes::digits::literal_of;
use script_shape::due::Due;
use script_words::class::Symbol;
use script_words::words::Word;

/// A proposition as far as it was read.
#[derive(Clone, Copy, PartialEq, Eq, Debug)]
pub struct Proposition {
    /// What stands before the word in hand.
    pub part: Part,
    /// The last whole number that was read, or 1025 or -1025 past these. It is that of `@FIX`,
    /// where one ends.
    pub exponent: i16,
    /// Whether the sign before a bound is a minus.
    pub negative: bool,
    /// Whether a `not` stands before it.
    pub denied: bool,
}

/// Before the first word of a proposition.
pub const NOTHING_READ: Proposition = Proposition {
    part: Part::Nothing,
    exponent: 0,
    negative: false,
    denied: false,
};

impl Proposition {
    /// Takes a word that ends no expression.
    pub fn read(&mut self, role: Due, word: Word<'_>)
        ensures read { self.new ≡ spec.proposition_read role (word_of word.entry) self.old }
        ensures normal { IsNormalPart self.old.part → IsNormalPart self.new.part }
    {
        match role {
            Due::Range => self.part = self.part.ranged(word),
            Due::Bound => self.bound(word),
            Due::Magnitude => self.magnitude(word),
            Due::Whole => self.whole(word),
            Due::WholeDigits => self.opposite(word),
            Due::Claim => self.denied = true,
            _ => {}
        }
    }

    // A bound, or the sign before it.
    fn bound(&mut self, word: Word<'_>)
        ensures read { self.new ≡ spec.bound_read (word_of word.entry) self.old }
        ensures normal { IsNormalPart self.old.part → IsNormalPart self.new.part }
    {
        match word {
            Word::Literal(_, text) => self.add_bound(text, false),
            Word::Sign(Symbol::Plus) => self.negative = false,
            Word::Sign(Symbol::Minus) => self.negative = true,
            _ => {}
        }
    }

    // The literal behind a sign.
    fn magnitude(&mut self, word: Word<'_>)
        ensures read { self.new ≡ spec.magnitude_read (word_of word.entry) self.old }
        ensures normal { IsNormalPart self.old.part → IsNormalPart self.new.part }
    {
        let negative = self.negative;
        match word {
            Word::Literal(_, text) => self.add_bound(text, negative),
            _ => {}
        }
    }

    fn add_bound(&mut self, text: &[u8], negative: bool)
        ensures read { self.new ≡ record self.old {
          part = spec.bounded
              (record { literal = spec_literals.literal_of text.now; negative = negative })
              self.old.part;
        } }
        ensures normal { IsNormalPart self.old.part → IsNormalPart self.new.part }
    {
        let bound = Written {
            literal: literal_of(text),
            negative,
        };
        let part = self.part.bounded(bound);
        self.part = part;
    }

    // Digits alone.
    fn whole(&mut self, word: Word<'_>)
        ensures { self.new ≡ spec.whole_read (word_of word.entry) self.old }
    {
        match word {
            Word::Literal(_, digits) => self.exponent = exponent_size(digits),
            _ => {}
        }
    }

    // Digits behind a minus.
    fn opposite(&mut self, word: Word<'_>)
        ensures { self.new ≡ spec.opposite_read (word_of word.entry) self.old }
    {
        match word {
            Word::Literal(_, digits) => self.exponent = -exponent_size(digits),
            _ => {}
        }
    }
}
