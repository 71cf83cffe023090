ghost use Rattle.std.specs.Prelude.{◌≡◌, ◌<◌, ℕ, IfOk};
ghost use Rattle.poly_normal.specs.Form as form;
ghost use Rattle.poly_normal.specs.Form.{Form};
ghost use Rattle.poly_normal.specs.Limited.{IsLimited};
ghost use Rattle.poly_normal.specs.Quotients.{
  HasRows,
  IsFormOf,
  atom_row_form,
  constant_form,
  quotient_of,
};
ghost use Rattle.poly_normal.specs.Ratio.{IsPlain, reduced_bottom, reduced_top};

use crate::limited::Limited;
use crate::{literals, sides};
use fx_model::Literal;
use std::alloc::{AllocError, Global};

/// Numerator and denominator.
#[derive(Drop)]
pub struct Quotient {
    pub top: Limited,
    pub bottom: Limited,
}

/// Both, where both are within the limits.
fn both(top: Option<Limited>, bottom: Option<Limited>) -> Option<Quotient>
    ensures { (width : ℕ) (f : Form) → IsLimited width f.top top → IsLimited width f.bottom bottom
        → IsFormOf width f result }
{
    match (top, bottom) {
        (Some(top), Some(bottom)) => Some(Quotient { top, bottom }),
        _ => None,
    }
}

/// An atom, by its place.
pub fn atom(alloc: Global, width: usize, place: usize) -> Result<Option<Quotient>, AllocError>
    requires { place < width }
    ensures { IfOk result (IsFormOf width (atom_row_form width place)) }
{
    let top = sides::atom(alloc, width, place)?;
    let bottom = sides::constant(alloc, width, 1)?;
    Ok(Some(Quotient { top, bottom }))
}

/// A literal, as a reduced fraction.
pub fn literal(alloc: Global, width: usize, l: Literal) -> Result<Option<Quotient>, AllocError>
    requires { IsPlain l }
    ensures { IfOk result (IsFormOf width
        (constant_form width (reduced_top l) (reduced_bottom l))) }
{
    let Some(ratio) = literals::fraction(l) else {
        return Ok(None);
    };
    let top = sides::constant(alloc, width, ratio.top)?;
    let bottom = sides::constant(alloc, width, ratio.bottom)?;
    Ok(Some(Quotient { top, bottom }))
}

/// -f
pub fn negation(alloc: Global, f: &Quotient) -> Result<Option<Quotient>, AllocError>
    requires { f.now.top.terms.width ≡ f.now.bottom.terms.width }
    ensures { IfOk result (IsFormOf f.now.top.terms.width
        (form.negation_form (quotient_of f.now))) }
{
    let top = sides::negation(alloc, &f.top)?;
    let bottom = sides::copy(alloc, &f.bottom)?;
    Ok(Some(Quotient { top, bottom }))
}

/// f + g
pub fn sum(alloc: Global, f: &Quotient, g: &Quotient) -> Result<Option<Quotient>, AllocError>
    requires left { HasRows f.now.top.terms.width f.now }
    requires right { HasRows f.now.top.terms.width g.now }
    ensures { IfOk result (IsFormOf f.now.top.terms.width
        (form.sum_form (quotient_of f.now) (quotient_of g.now))) }
{
    let top = sides::cross_sum(alloc, &f.top, &g.bottom, &g.top, &f.bottom)?;
    let bottom = sides::product(alloc, &f.bottom, &g.bottom)?;
    Ok(both(top, bottom))
}

/// f - g
pub fn difference(alloc: Global, f: &Quotient, g: &Quotient) -> Result<Option<Quotient>, AllocError>
    requires left { HasRows f.now.top.terms.width f.now }
    requires right { HasRows f.now.top.terms.width g.now }
    ensures { IfOk result (IsFormOf f.now.top.terms.width
        (form.difference_form (quotient_of f.now) (quotient_of g.now))) }
{
    let minus = sides::negation(alloc, &g.top)?;
    let top = sides::cross_sum(alloc, &f.top, &g.bottom, &minus, &f.bottom)?;
    let bottom = sides::product(alloc, &f.bottom, &g.bottom)?;
    Ok(both(top, bottom))
}

/// f * g
pub fn product(alloc: Global, f: &Quotient, g: &Quotient) -> Result<Option<Quotient>, AllocError>
    requires left { HasRows f.now.top.terms.width f.now }
    requires right { HasRows f.now.top.terms.width g.now }
    ensures { IfOk result (IsFormOf f.now.top.terms.width
        (form.product_form (quotient_of f.now) (quotient_of g.now))) }
{
    let top = sides::product(alloc, &f.top, &g.top)?;
    let bottom = sides::product(alloc, &f.bottom, &g.bottom)?;
    Ok(both(top, bottom))
}

/// f / g
pub fn division(alloc: Global, f: &Quotient, g: &Quotient) -> Result<Option<Quotient>, AllocError>
    requires left { HasRows f.now.top.terms.width f.now }
    requires right { HasRows f.now.top.terms.width g.now }
    ensures { IfOk result (IsFormOf f.now.top.terms.width
        (form.quotient_form (quotient_of f.now) (quotient_of g.now))) }
{
    let top = sides::product(alloc, &f.top, &g.bottom)?;
    let bottom = sides::product(alloc, &f.bottom, &g.top)?;
    Ok(both(top, bottom))
}
