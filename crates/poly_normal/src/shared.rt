//! The comparison over a list of shared nodes.
ghost use Rattle.std.specs.Prelude.{◌≡◌, ◌<◌, IfOk, length};
ghost use Rattle.fx_model.specs.Expression.{IsOrdered};
ghost use Rattle.poly_normal.specs.Mark.{Answers, HaveEqualValues};
ghost use Rattle.poly_normal.specs.Ratio.{ArePlain};

use crate::forms::Quotient;
use crate::sameness::Sameness;
use crate::{answer, parts};
use expr_dag::Dag;
use fx_model::{ExprId, Node};
use std::alloc::{AllocError, Global};

/// Whether two expressions are equal as rational functions. Both are numbers of the list. Lack of
/// memory is the only error.
pub fn same(alloc: Global, dag: &Dag, a: ExprId, b: ExprId) -> Result<Sameness, AllocError>
    requires left { a.0 < length dag.now }
    requires right { b.0 < length dag.now }
    ensures answers { IfOk result (Answers dag.now a b) }
    // Where the sides are the same, they have equal values wherever both have one.
    ensures law { result ≡ Ok Sameness.Same → HaveEqualValues dag.now a b }
{
    plain(dag);
    let nodes = nodes_of(alloc, dag)?;
    answer::same(alloc, nodes.as_slice(), a, b)
}

/// The forms of all that the sides of some comparisons are made of, each computed once. A node that
/// passes a limit has no form, nor has what contains it; a form has at most 512 terms.
#[derive(Drop)]
pub struct Forms {
    marks: Vec<bool>,
    forms: Vec<Option<Quotient>>,
}

impl Forms {
    ghost use Rattle.poly_normal.specs.Parts.{IsSide};
    ghost use Rattle.poly_normal.specs.Table.{AreFormsOf, HasEntry};

    /// The forms of all that the sides are made of. The sides are numbers of the list. Lack of
    /// memory is the only error.
    pub fn new(alloc: Global, dag: &Dag, sides: &[ExprId]) -> Result<Forms, AllocError>
        requires { (x : ExprId) → IsSide sides.now x → x.0 < length dag.now }
        ensures forms { IfOk result (AreFormsOf dag.now) }
        // Each side has its entry.
        ensures sides { IfOk result (λ t. (x : ExprId) → IsSide sides.now x → HasEntry t x) }
    {
        plain(dag);
        let nodes = nodes_of(alloc, dag)?;
        let marks = parts::parts(alloc, nodes.as_slice(), sides)?;
        let forms = answer::table(alloc, nodes.as_slice(), &marks)?;
        Ok(Forms { marks, forms })
    }

    /// Whether two expressions are equal as rational functions, as `same` says. Both have entries
    /// in the table, which is one of this list. Lack of memory is the only error.
    pub fn same(
        &self,
        alloc: Global,
        dag: &Dag,
        a: ExprId,
        b: ExprId,
    ) -> Result<Sameness, AllocError>
        requires forms { AreFormsOf dag.now self.now }
        requires left { HasEntry self.now a }
        requires right { HasEntry self.now b }
        ensures answers { IfOk result (Answers dag.now a b) }
        // Where the sides are the same, they have equal values wherever both have one.
        ensures law { result ≡ Ok Sameness.Same → HaveEqualValues dag.now a b }
    {
        plain(dag);
        answer::compare_at(alloc, &self.forms, a, b)
    }
}

// Nothing is done. The clauses tell what the list keeps.
fn plain(dag: &Dag)
    ensures ordered { IsOrdered dag.now }
    ensures plain { ArePlain dag.now }
{
    dag.laws();
}

// The nodes of the list, in order.
fn nodes_of(alloc: Global, dag: &Dag) -> Result<Vec<Node>, AllocError>
    ensures { IfOk result (λ nodes. nodes.items ≡ dag.now) }
{
    let mut nodes = Vec::new(alloc);
    for i in 0..dag.len() {
        nodes.push(dag.node(ExprId(i)))?;
    }
    Ok(nodes)
}
