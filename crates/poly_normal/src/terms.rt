ghost use Rattle.std.specs.Prelude.{◌≡◌, ◌*◌, ◌<◌, ◌≤◌, ◌++◌, ◌∷◌, [], drop, length, vec_len};
ghost use Rattle.std.specs.Prelude.{slice_index_or, OnOk};

use std::alloc::{AllocError, Global};

/// A polynomial as a list of terms. A monomial has a power for each of `width` atoms.
#[derive(Drop)]
pub struct Terms {
    pub width: usize,
    pub coefficients: Vec<i128>,
    pub powers: Vec<u16>,
    ghost layout: { vec_len powers ≡ vec_len coefficients * width },
}

impl Terms {
    ghost use Rattle.poly_normal.specs.Rows.{no_term, with_term};
    ghost use Rattle.poly_normal.specs.TermsOf.{polynomial_of};

    /// The polynomial without terms.
    pub fn new(alloc: Global, width: usize) -> Self
        ensures empty { polynomial_of result ≡ [] }
        ensures width { result.width ≡ width }
    {
        Terms {
            width,
            coefficients: Vec::new(alloc),
            powers: Vec::new(alloc),
        }
    }

    /// How many terms are written.
    pub fn len(&self) -> usize
        ensures { result ≡ length (polynomial_of self.now) }
    {
        self.coefficients.len()
    }

    /// The coefficient of term i.
    pub fn coefficient(&self, i: usize) -> i128
        requires { i < length (polynomial_of self.now) }
        ensures { result ≡ (slice_index_or (polynomial_of self.now) i no_term).coefficient }
    {
        self.coefficients[i]
    }

    /// The powers of term i.
    pub fn monomial(&self, i: usize) -> &[u16]
        requires { i < length (polynomial_of self.now) }
        ensures row { result.now ≡ (slice_index_or (polynomial_of self.now) i no_term).monomial }
        ensures width { length result.now ≡ self.now.width }
    {
        let powers = self.powers.as_slice();
        let start = i * self.width;
        &powers[start..start + self.width]
    }

    /// One more term. Where memory runs out, powers and coefficients stay in step.
    pub fn push(&mut self, coefficient: i128, monomial: &[u16]) -> Result<(), AllocError>
        requires { length monomial.now ≡ self.old.width }
        ensures ok { OnOk result (polynomial_of self.new ≡ polynomial_of self.old
            ++ record { coefficient = coefficient; monomial = monomial.now } ∷ []) }
        ensures width { self.new.width ≡ self.old.width }
    {
        self.coefficients.push(coefficient)?;
        if self.powers.extend_from_slice(monomial).is_err() {
            let _ = self.coefficients.pop();
            return Err(AllocError);
        }
        Ok(())
    }

    /// The same with one more term, unless its coefficient is zero.
    pub fn push_unless_zero(
        &mut self,
        coefficient: i128,
        monomial: &[u16],
    ) -> Result<(), AllocError>
        requires { length monomial.now ≡ self.old.width }
        ensures ok { OnOk result (polynomial_of self.new ≡ polynomial_of self.old
            ++ with_term coefficient monomial.now []) }
        ensures width { self.new.width ≡ self.old.width }
    {
        if coefficient == 0 {
            return Ok(());
        }
        self.push(coefficient, monomial)
    }

    /// The same with all terms of p from number `from` on.
    pub fn push_from(&mut self, p: &Terms, from: usize) -> Result<(), AllocError>
        requires widths { p.now.width ≡ self.old.width }
        requires inside { from ≤ length (polynomial_of p.now) }
        ensures ok { OnOk result (polynomial_of self.new ≡ polynomial_of self.old
            ++ drop from (polynomial_of p.now)) }
        ensures width { self.new.width ≡ self.old.width }
    {
        for i in from..p.len() {
            self.push(p.coefficient(i), p.monomial(i))?;
        }
        Ok(())
    }
}
