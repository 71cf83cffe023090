//! What steps are given, and its numbers.
ghost use Rattle.std.specs.Prelude.{◌≡◌};
ghost use Rattle.cert_checker.specs.Given.{given_number, given_of};

/// What a step may be given beside what the rules conclude; it takes no premises.
#[derive(Clone, Copy, PartialEq, Eq, Debug)]
pub enum Given {
    /// A hypothesis of the case.
    Hypothesis,
    /// That a variable has a value.
    Variable,
    /// The piece of the last cut.
    Piece,
}

impl Given {
    /// The number that stands for it in a step, in the place of a rule's.
    #[inline(always)]
    pub fn number(self) -> u8
        ensures { result ≡ given_number self }
    {
        match self {
            Given::Hypothesis => 100,
            Given::Variable => 101,
            Given::Piece => 102,
        }
    }

    // What a step with this number is given; None where the number is no such one.
    #[inline(always)]
    pub(crate) fn of(number: u8) -> Option<Given>
        ensures { result ≡ given_of number }
    {
        if number == Given::Hypothesis.number() {
            Some(Given::Hypothesis)
        } else if number == Given::Variable.number() {
            Some(Given::Variable)
        } else if number == Given::Piece.number() {
            Some(Given::Piece)
        } else {
            None
        }
    }
}
