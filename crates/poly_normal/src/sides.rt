ghost use Rattle.std.specs.Prelude.{◌≡◌, ◌+◌, ◌*◌, ◌≤◌, ◌<◌, ◌^◌, IfOk};
ghost use Rattle.poly_normal.specs.Form as form;
ghost use Rattle.poly_normal.specs.Limited.{IsLike, IsLimited, IsWithin, atom_side, constant_side};
ghost use Rattle.poly_normal.specs.Limited.{side_of};
ghost use Rattle.poly_normal.specs.Ratio.{IsBelowLimit};
ghost use Rattle.poly_normal.specs.Rows.{IsJoined};
ghost use Rattle.poly_normal.specs.TermsOf.{polynomial_of};

use crate::arithmetic;
use crate::limited::Limited;
use crate::terms::Terms;
use std::alloc::{AllocError, Global};

const WEIGHT_LIMIT: u128 = 1 << 127;

const DEGREE_LIMIT: u32 = 4096;

const TERM_LIMIT: usize = 256;

/// The terms with their weight and degree, or none where they are too many.
fn within(terms: Terms, weight: u128, degree: u32) -> Option<Limited>
    requires joined { IsJoined terms.width degree weight (polynomial_of terms) }
    requires light { weight < 2 ^ 127 }
    requires low { degree ≤ 4096 }
    ensures { IsWithin terms weight degree result }
{
    if terms.len() > TERM_LIMIT {
        return None;
    }
    Some(Limited {
        terms,
        weight,
        degree,
    })
}

/// The product of two weights, or none where it isn't below 2^127.
fn weight_product(p: u128, q: u128) -> Option<u128>
    ensures { IsBelowLimit (p * q) result }
{
    match p.checked_mul(q) {
        Some(weight) => {
            if weight < WEIGHT_LIMIT {
                Some(weight)
            } else {
                None
            }
        }
        None => None,
    }
}

/// The product of two polynomials.
pub fn product(alloc: Global, p: &Limited, q: &Limited) -> Result<Option<Limited>, AllocError>
    requires { p.now.terms.width ≡ q.now.terms.width }
    ensures { IfOk result (IsLimited p.now.terms.width
        (form.product (side_of p.now) (side_of q.now))) }
{
    let Some(weight) = weight_product(p.weight, q.weight) else {
        return Ok(None);
    };
    let degree = p.degree + q.degree;
    if degree > DEGREE_LIMIT {
        return Ok(None);
    }
    let terms = arithmetic::product(alloc, &p.terms, &q.terms)?;
    Ok(within(terms, weight, degree))
}

/// p * e + q * d. The products alone aren't judged: their terms may cancel.
pub fn cross_sum(
    alloc: Global,
    p: &Limited,
    e: &Limited,
    q: &Limited,
    d: &Limited,
) -> Result<Option<Limited>, AllocError>
    requires left { p.now.terms.width ≡ e.now.terms.width }
    requires right { q.now.terms.width ≡ d.now.terms.width }
    requires both { p.now.terms.width ≡ q.now.terms.width }
    ensures { IfOk result (IsLimited p.now.terms.width
        (form.sum (form.product (side_of p.now) (side_of e.now))
        (form.product (side_of q.now) (side_of d.now)))) }
{
    let Some(left_weight) = weight_product(p.weight, e.weight) else {
        return Ok(None);
    };
    let Some(right_weight) = weight_product(q.weight, d.weight) else {
        return Ok(None);
    };
    let weight = left_weight + right_weight;
    if weight >= WEIGHT_LIMIT {
        return Ok(None);
    }
    let degree = (p.degree + e.degree).max(q.degree + d.degree);
    if degree > DEGREE_LIMIT {
        return Ok(None);
    }
    let left = arithmetic::product(alloc, &p.terms, &e.terms)?;
    let right = arithmetic::product(alloc, &q.terms, &d.terms)?;
    let terms = arithmetic::sum(alloc, &left, &right)?;
    Ok(within(terms, weight, degree))
}

/// Minus a polynomial.
pub fn negation(alloc: Global, p: &Limited) -> Result<Limited, AllocError>
    ensures width { IfOk result (λ r. r.terms.width ≡ p.now.terms.width) }
    ensures negation { IfOk result (λ r. IsLike (side_of r) (form.negation (side_of p.now))) }
{
    let terms = arithmetic::negation(alloc, &p.terms)?;
    Ok(Limited {
        terms,
        weight: p.weight,
        degree: p.degree,
    })
}

/// The same polynomial once more.
pub fn copy(alloc: Global, p: &Limited) -> Result<Limited, AllocError>
    ensures width { IfOk result (λ r. r.terms.width ≡ p.now.terms.width) }
    ensures same { IfOk result (λ r. IsLike (side_of r) (side_of p.now)) }
{
    let mut terms = Terms::new(alloc, p.terms.width);
    terms.push_from(&p.terms, 0)?;
    Ok(Limited {
        terms,
        weight: p.weight,
        degree: p.degree,
    })
}

/// A whole number, over rows of `width` powers.
pub fn constant(alloc: Global, width: usize, size: u128) -> Result<Limited, AllocError>
    requires { size < 2 ^ 127 }
    ensures width { IfOk result (λ r. r.terms.width ≡ width) }
    ensures constant { IfOk result (λ r. IsLike (side_of r) (constant_side width size)) }
{
    let powers = vec![in alloc; 0u16; width]?;
    let mut terms = Terms::new(alloc, width);
    terms.push_unless_zero(size as i128, &powers)?;
    Ok(Limited {
        terms,
        weight: size,
        degree: 0,
    })
}

/// The atom at a place, over rows of `width` powers.
pub fn atom(alloc: Global, width: usize, place: usize) -> Result<Limited, AllocError>
    requires { place < width }
    ensures width { IfOk result (λ r. r.terms.width ≡ width) }
    ensures atom { IfOk result (λ r. IsLike (side_of r) (atom_side width place)) }
{
    let mut powers = vec![in alloc; 0u16; width]?;
    powers[place] = 1;
    let mut terms = Terms::new(alloc, width);
    terms.push(1, &powers)?;
    Ok(Limited {
        terms,
        weight: 1,
        degree: 1,
    })
}
