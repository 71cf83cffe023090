ghost use Rattle.std.specs.Prelude.{◌≡◌, ◌+◌, ◌*◌, ◌≤◌, ◌<◌, ◌^◌, ◌↔◌, IsTrue, IfOk, OnOk, length};
ghost use Rattle.std.specs.Prelude.{map, slice_index_or, slice_range};
ghost use Rattle.std.specs.List.{AllByRecursion};
ghost use Rattle.poly_normal.specs.Polynomial as polynomial;
ghost use Rattle.poly_normal.specs.Polynomial.{IsEqual, monomial_product, term_product};
ghost use Rattle.poly_normal.specs.Rows.{size_of, no_term, IsRising, AllRows, IsSumOf, IsProductOf};
ghost use Rattle.poly_normal.specs.TermsOf.{polynomial_of};

use crate::terms::Terms;
use std::alloc::{AllocError, Global};
use std::cmp::Ordering;

/// The sum of two polynomials. Where the monomials of both rise, like terms are joined.
pub fn sum(alloc: Global, p: &Terms, q: &Terms) -> Result<Terms, AllocError>
    requires widths { p.now.width ≡ q.now.width }
    requires room { size_of (polynomial_of p.now) + size_of (polynomial_of q.now) < 2 ^ 127 }
    ensures width { IfOk result (λ r. r.width ≡ p.now.width) }
    ensures sum { IfOk result
        (λ r. IsSumOf (polynomial_of p.now) (polynomial_of q.now) (polynomial_of r)) }
{
    let mut out = Terms::new(alloc, p.width);
    let mut i = 0;
    let mut j = 0;
    while i < p.len() && j < q.len() {
        match p.monomial(i).cmp(q.monomial(j)) {
            Ordering::Less => {
                out.push(p.coefficient(i), p.monomial(i))?;
                i += 1;
            }
            Ordering::Greater => {
                out.push(q.coefficient(j), q.monomial(j))?;
                j += 1;
            }
            Ordering::Equal => {
                let both = p.coefficient(i) + q.coefficient(j);
                out.push_unless_zero(both, p.monomial(i))?;
                i += 1;
                j += 1;
            }
        }
    }
    out.push_from(p, i)?;
    out.push_from(q, j)?;
    Ok(out)
}

/// Minus a polynomial.
pub fn negation(alloc: Global, p: &Terms) -> Result<Terms, AllocError>
    requires { size_of (polynomial_of p.now) < 2 ^ 127 }
    ensures width { IfOk result (λ r. r.width ≡ p.now.width) }
    ensures terms { IfOk result (λ r. polynomial_of r ≡ polynomial.negation (polynomial_of p.now)) }
{
    let mut out = Terms::new(alloc, p.width);
    for i in 0..p.len() {
        out.push(-p.coefficient(i), p.monomial(i))?;
    }
    Ok(out)
}

/// Writes the product of two monomials into `row`.
fn multiply_monomials(row: &mut Vec<u16>, l: &[u16], m: &[u16]) -> Result<(), AllocError>
    requires lengths { length l.now ≡ length m.now }
    requires left { AllByRecursion (λ k. k ≤ 4096) l.now }
    requires right { AllByRecursion (λ k. k ≤ 4096) m.now }
    ensures { OnOk result (row.new.items ≡ monomial_product l.now m.now) }
{
    row.clear();
    for k in 0..l.len() {
        row.push(l[k] + m[k])?;
    }
    Ok(())
}

/// Term i of p times q.
fn row_product(alloc: Global, p: &Terms, i: usize, q: &Terms) -> Result<Terms, AllocError>
    requires widths { p.now.width ≡ q.now.width }
    requires inside { i < length (polynomial_of p.now) }
    requires left { AllRows p.now.width 4096 (polynomial_of p.now) }
    requires right { AllRows p.now.width 4096 (polynomial_of q.now) }
    requires room { size_of (polynomial_of p.now) * size_of (polynomial_of q.now) < 2 ^ 127 }
    ensures width { IfOk result (λ r. r.width ≡ p.now.width) }
    ensures terms { IfOk result (λ r. polynomial_of r
        ≡ map (term_product (slice_index_or (polynomial_of p.now) i no_term))
        (polynomial_of q.now)) }
{
    let mut out = Terms::new(alloc, p.width);
    let mut row = Vec::new(alloc);
    let coefficient = p.coefficient(i);
    let monomial = p.monomial(i);
    for j in 0..q.len() {
        multiply_monomials(&mut row, monomial, q.monomial(j))?;
        out.push(coefficient * q.coefficient(j), &row)?;
    }
    Ok(out)
}

/// The terms of p from `low` to `high` times q.
fn product_between(
    alloc: Global,
    p: &Terms,
    low: usize,
    high: usize,
    q: &Terms,
) -> Result<Terms, AllocError>
    requires widths { p.now.width ≡ q.now.width }
    requires order { low ≤ high }
    requires inside { high ≤ length (polynomial_of p.now) }
    requires left { AllRows p.now.width 4096 (polynomial_of p.now) }
    requires right { AllRows p.now.width 4096 (polynomial_of q.now) }
    requires room { size_of (polynomial_of p.now) * size_of (polynomial_of q.now) < 2 ^ 127 }
    ensures width { IfOk result (λ r. r.width ≡ p.now.width) }
    ensures product { IfOk result (λ r.
        IsProductOf p.now.width (slice_range (polynomial_of p.now) low high)
        (polynomial_of q.now) (polynomial_of r)) }
{
    if high - low == 0 {
        return Ok(Terms::new(alloc, p.width));
    }
    if high - low == 1 {
        return row_product(alloc, p, low, q);
    }
    let middle = low + (high - low) / 2;
    let first = product_between(alloc, p, low, middle, q)?;
    let second = product_between(alloc, p, middle, high, q)?;
    sum(alloc, &first, &second)
}

/// The product of two polynomials. Where the monomials of both rise, like terms are joined.
pub fn product(alloc: Global, p: &Terms, q: &Terms) -> Result<Terms, AllocError>
    requires widths { p.now.width ≡ q.now.width }
    requires left { AllRows p.now.width 4096 (polynomial_of p.now) }
    requires right { AllRows p.now.width 4096 (polynomial_of q.now) }
    requires room { size_of (polynomial_of p.now) * size_of (polynomial_of q.now) < 2 ^ 127 }
    ensures width { IfOk result (λ r. r.width ≡ p.now.width) }
    ensures product { IfOk result (λ r. IsProductOf p.now.width (polynomial_of p.now)
        (polynomial_of q.now) (polynomial_of r)) }
{
    product_between(alloc, p, 0, p.len(), q)
}

/// Whether two polynomials are equal.
pub fn is_equal(p: &Terms, q: &Terms) -> bool
    requires widths { p.now.width ≡ q.now.width }
    requires left { IsRising (polynomial_of p.now) }
    requires right { IsRising (polynomial_of q.now) }
    ensures { IsTrue result ↔ IsEqual (polynomial_of p.now) (polynomial_of q.now) }
{
    let coefficients = p.coefficients.as_slice() == q.coefficients.as_slice();
    let powers = p.powers.as_slice() == q.powers.as_slice();
    coefficients && powers
}
