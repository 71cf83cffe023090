ghost use Rattle.std.specs.Prelude.{◌≡◌, ◌&&◌, ◌<◌, IfOk, MatchOption, length, slice_index_or};
ghost use Rattle.std.specs.Prelude.{is_some, true, false, ℕ};
ghost use Rattle.fx_model.specs.Expression.{ChildrenBelow, IsOrdered};
ghost use Rattle.poly_normal.specs.Form.{Side, product};
ghost use Rattle.poly_normal.specs.Limited.{IsLike, side_of};
ghost use Rattle.poly_normal.specs.Mark.{Answers, HaveEqualValues, IsOperand};
ghost use Rattle.poly_normal.specs.Parts.{is_atom_node};
ghost use Rattle.poly_normal.specs.Places.{count_of, places, trues};
ghost use Rattle.poly_normal.specs.Quotients.{HasRows, IsFormOf, IsKnown, form_at, row_form};
ghost use Rattle.poly_normal.specs.Quotients.{IsRowed};
ghost use Rattle.poly_normal.specs.Ratio.{ArePlain, IsPlainNode};
ghost use Rattle.poly_normal.specs.Table.{AreCompared, AreKnown, AreThere, IsClosed, IsCompared};
ghost use Rattle.poly_normal.specs.Table.{IsMissing, IsNext};

use crate::forms::Quotient;
use crate::limited::Limited;
use crate::sameness::Sameness;
use crate::{arithmetic, forms, parts, sides};
use fx_model::{ExprId, Node};
use std::alloc::{AllocError, Global};

/// The form in the table at x, or none where it has none.
fn known(forms: &[Option<Quotient>], x: ExprId) -> Option<&Quotient>
    requires { x.0 < length forms.now }
    ensures { MatchOption result (slice_index_or forms.now x.0 None ≡ None)
        (λ f. slice_index_or forms.now x.0 None ≡ Some f.now) }
{
    match &forms[x.0 as usize] {
        Some(f) => Some(f),
        None => None,
    }
}

/// The form of a node, from those of its operands.
fn node_form(
    alloc: Global,
    width: usize,
    place: usize,
    forms: &[Option<Quotient>],
    node: Node,
) -> Result<Option<Quotient>, AllocError>
    requires before { ChildrenBelow (length forms.now) node }
    requires known { (x : ExprId) → IsOperand node x
        → IsKnown width (slice_index_or forms.now x.0 None) }
    requires place { is_atom_node node ≡ true → place < width }
    requires plain { IsPlainNode node }
    ensures { IfOk result (IsFormOf width (row_form width place (form_at forms.now) node)) }
{
    match node {
        Node::Var(_) | Node::Abs(_) | Node::Round(_, _) => forms::atom(alloc, width, place),
        Node::Lit(l) => forms::literal(alloc, width, l),
        Node::Neg(x) => {
            let Some(f) = known(forms, x) else {
                return Ok(None);
            };
            forms::negation(alloc, f)
        }
        Node::Add(x, y) => {
            let (Some(f), Some(g)) = (known(forms, x), known(forms, y)) else {
                return Ok(None);
            };
            forms::sum(alloc, f, g)
        }
        Node::Sub(x, y) => {
            let (Some(f), Some(g)) = (known(forms, x), known(forms, y)) else {
                return Ok(None);
            };
            forms::difference(alloc, f, g)
        }
        Node::Mul(x, y) => {
            let (Some(f), Some(g)) = (known(forms, x), known(forms, y)) else {
                return Ok(None);
            };
            forms::product(alloc, f, g)
        }
        Node::Div(x, y) => {
            let (Some(f), Some(g)) = (known(forms, x), known(forms, y)) else {
                return Ok(None);
            };
            forms::division(alloc, f, g)
        }
    }
}

/// Whether x has a form in the table.
fn is_there(forms: &[Option<Quotient>], x: ExprId) -> bool
    requires { x.0 < length forms.now }
    ensures { result ≡ is_some (slice_index_or forms.now x.0 None) }
{
    match &forms[x.0 as usize] {
        Some(_) => true,
        None => false,
    }
}

/// Whether all operands of a node have a form in the table.
fn are_there(forms: &[Option<Quotient>], node: Node) -> bool
    requires { ChildrenBelow (length forms.now) node }
    ensures there { result ≡ true → AreThere forms.now node }
    ensures missing { result ≡ false → IsMissing forms.now node }
{
    match node {
        Node::Var(_) | Node::Lit(_) | Node::Abs(_) | Node::Round(_, _) => true,
        Node::Neg(x) => is_there(forms, x),
        Node::Add(x, y) | Node::Sub(x, y) | Node::Mul(x, y) | Node::Div(x, y) => {
            is_there(forms, x) && is_there(forms, y)
        }
    }
}

/// The form of a node from the table, or none where an operand has none or it passes a limit.
fn next_form(
    alloc: Global,
    width: usize,
    place: usize,
    forms: &[Option<Quotient>],
    node: Node,
) -> Result<Option<Quotient>, AllocError>
    requires before { ChildrenBelow (length forms.now) node }
    requires rows { (x : ExprId) → IsOperand node x
        → IsRowed width (slice_index_or forms.now x.0 None) }
    requires place { is_atom_node node ≡ true → place < width }
    requires plain { IsPlainNode node }
    ensures { IfOk result (IsNext width place forms.now node) }
{
    if !are_there(forms, node) {
        return Ok(None);
    }
    node_form(alloc, width, place, forms, node)
}

/// One for a marked atom.
fn counted(mark: bool, node: Node) -> usize
    ensures { result ≡ count_of (mark && is_atom_node node) }
{
    if mark && parts::is_atom(node) { 1 } else { 0 }
}

/// How many atoms are marked.
fn width_of(nodes: &[Node], marks: &[bool]) -> usize
    requires { length marks.now ≡ length nodes.now }
    ensures { result ≡ trues (places nodes.now marks.now) }
{
    let mut width = 0;
    for i in 0..nodes.len() {
        width += counted(marks[i], nodes[i]);
    }
    width
}

/// The forms of the marked nodes. A node that passes a limit has none, nor has what contains it.
pub fn table(
    alloc: Global,
    nodes: &[Node],
    marks: &[bool],
) -> Result<Vec<Option<Quotient>>, AllocError>
    requires ordered { IsOrdered nodes.now }
    requires plain { ArePlain nodes.now }
    requires each { length marks.now ≡ length nodes.now }
    requires closed { IsClosed nodes.now marks.now }
    ensures known { IfOk result (λ forms. AreKnown nodes.now marks.now (length nodes.now)
        forms.items) }
    ensures size { IfOk result (λ forms. length forms.items ≡ length nodes.now) }
{
    let width = width_of(nodes, marks);
    let mut place = 0;
    let mut forms: Vec<Option<Quotient>> = Vec::new(alloc);
    for i in 0..nodes.len() {
        if !marks[i] {
            forms.push(None)?;
            continue;
        }
        let form = next_form(alloc, width, place, &forms, nodes[i])?;
        forms.push(form)?;
        place += counted(true, nodes[i]);
    }
    Ok(forms)
}

/// Whether two polynomials within the limits are equal.
fn compare_sides(left: &Limited, right: &Limited) -> Sameness
    requires { left.now.terms.width ≡ right.now.terms.width }
    ensures { (s t : Side) → IsLike (side_of left.now) s → IsLike (side_of right.now) t
        → IsCompared s t result }
{
    if arithmetic::is_equal(&left.terms, &right.terms) {
        Sameness::Same
    } else {
        Sameness::Differs
    }
}

/// Whether two quotients are equal, by their cross products.
fn compare(alloc: Global, f: &Quotient, g: &Quotient) -> Result<Sameness, AllocError>
    requires left { HasRows f.now.top.terms.width f.now }
    requires right { HasRows f.now.top.terms.width g.now }
    ensures { IfOk result (IsCompared (product (side_of f.now.top) (side_of g.now.bottom))
        (product (side_of g.now.top) (side_of f.now.bottom))) }
{
    let Some(left) = sides::product(alloc, &f.top, &g.bottom)? else {
        return Ok(Sameness::TooLarge);
    };
    let Some(right) = sides::product(alloc, &g.top, &f.bottom)? else {
        return Ok(Sameness::TooLarge);
    };
    Ok(compare_sides(&left, &right))
}

/// Whether the quotients in the table at a and b are equal. If one isn't there, a limit is passed.
pub fn compare_at(
    alloc: Global,
    forms: &[Option<Quotient>],
    a: ExprId,
    b: ExprId,
) -> Result<Sameness, AllocError>
    requires left { a.0 < length forms.now }
    requires right { b.0 < length forms.now }
    requires rows { (width : ℕ) × IsRowed width (slice_index_or forms.now a.0 None)
        × IsRowed width (slice_index_or forms.now b.0 None) }
    ensures { IfOk result (AreCompared (slice_index_or forms.now a.0 None)
        (slice_index_or forms.now b.0 None)) }
{
    let (Some(f), Some(g)) = (known(forms, a), known(forms, b)) else {
        return Ok(Sameness::TooLarge);
    };
    compare(alloc, f, g)
}

/// Whether a and b are equal as rational functions, by the limits and normal forms of `specs/Mark`.
/// Lack of memory is the only error.
pub fn same(alloc: Global, nodes: &[Node], a: ExprId, b: ExprId) -> Result<Sameness, AllocError>
    requires ordered { IsOrdered nodes.now }
    requires plain { ArePlain nodes.now }
    requires left { a.0 < length nodes.now }
    requires right { b.0 < length nodes.now }
    ensures answers { IfOk result (Answers nodes.now a b) }
    // Where the sides are the same, they have equal values wherever both have one.
    ensures law { result ≡ Ok Sameness.Same → HaveEqualValues nodes.now a b }
{
    let marks = parts::parts(alloc, nodes, &[a, b])?;
    let forms = table(alloc, nodes, &marks)?;
    compare_at(alloc, &forms, a, b)
}
