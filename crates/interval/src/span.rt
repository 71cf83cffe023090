ghost use Rattle.std.specs.Prelude.{◌≡◌};
ghost use Rattle.fx_model.specs.Fraction.{◌≤ℚ◌, Le-prop, neg_ℚ};
ghost use Rattle.fx_model.specs.Enclosure.{mirror};
ghost use Rattle.dyadic.specs.Values.{value_of};

use dyadic::Dyadic;

/// An interval with two finite ends.
#[derive(Clone, Copy)]
pub struct Span {
    pub low: Dyadic,
    pub high: Dyadic,
    pub ghost ordered: { value_of low
        ≤ℚ value_of high } by { Le-prop (value_of low) (value_of high) },
}

impl Span {
    ghost use Rattle.interval.specs.Spans.{span_of};

    /// The interval of the negatives of its numbers.
    #[inline(always)]
    pub fn neg(self) -> Span
        ensures range { span_of result ≡ mirror (span_of self) }
        ensures low { value_of result.low ≡ neg_ℚ (value_of self.high) }
    {
        Span {
            low: self.high.neg(),
            high: self.low.neg(),
        }
    }
}
