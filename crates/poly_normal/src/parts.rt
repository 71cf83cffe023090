ghost use Rattle.std.specs.Prelude.{◌≡◌, ◌<◌, length, vec_len, IfOk};
ghost use Rattle.fx_model.specs.Expression.{IsOrdered, ChildrenBelow};
ghost use Rattle.poly_normal.specs.Mark.{IsOperand};
ghost use Rattle.poly_normal.specs.Parts.{AreParts, IsSide, is_atom_node, IsMarking};

use fx_model::{ExprId, Node};
use std::alloc::{AllocError, Global};

/// Marks x.
fn mark(marks: &mut Vec<bool>, x: ExprId)
    requires { x.0 < vec_len marks.old }
    ensures { IsMarking marks.old.items marks.new.items (λ z. z ≡ x) }
{
    marks[x.0 as usize] = true;
}

/// Marks what a node is made of; an atom of nothing.
fn mark_operands(marks: &mut Vec<bool>, node: Node)
    requires { ChildrenBelow (vec_len marks.old) node }
    ensures { IsMarking marks.old.items marks.new.items (IsOperand node) }
{
    match node {
        Node::Var(_) | Node::Lit(_) | Node::Abs(_) | Node::Round(_, _) => {}
        Node::Neg(x) => mark(marks, x),
        Node::Add(x, y) | Node::Sub(x, y) | Node::Mul(x, y) | Node::Div(x, y) => {
            mark(marks, x);
            mark(marks, y);
        }
    }
}

/// Marks the sides.
fn mark_sides(marks: &mut Vec<bool>, sides: &[ExprId])
    requires { (x : ExprId) → IsSide sides.now x → x.0 < vec_len marks.old }
    ensures { IsMarking marks.old.items marks.new.items (IsSide sides.now) }
{
    for k in 0..sides.len() {
        mark(marks, sides[k]);
    }
}

/// For each node whether it is a subexpression of one of the sides.
pub fn parts(alloc: Global, nodes: &[Node], sides: &[ExprId]) -> Result<Vec<bool>, AllocError>
    requires ordered { IsOrdered nodes.now }
    requires inside { (x : ExprId) → IsSide sides.now x → x.0 < length nodes.now }
    ensures { IfOk result (λ marks. AreParts nodes.now sides.now marks.items) }
{
    let mut marks = vec![in alloc; false; nodes.len()]?;
    mark_sides(&mut marks, sides);
    let mut i = nodes.len();
    while i > 0 {
        i -= 1;
        if marks[i] {
            mark_operands(&mut marks, nodes[i]);
        }
    }
    Ok(marks)
}

/// Whether a node is an atom: a variable, an absolute value or a rounding.
pub fn is_atom(node: Node) -> bool
    ensures { result ≡ is_atom_node node }
{
    matches!(node, Node::Var(_) | Node::Abs(_) | Node::Round(_, _))
}
