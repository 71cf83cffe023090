//! What signs and operators' words make of what waits.

ghost use Rattle.std.specs.Prelude.{◌≡◌, ◌<◌, pos, negsuc, length, Err, IfOk, IfErr, OnOk};
ghost use Rattle.literal.specs.Spelling.{IsBetween};
ghost use Rattle.script_nodes.specs.Values as spec_values;
ghost use Rattle.script_nodes.specs.OperatorWords as spec_operators;
ghost use Rattle.script_nodes.specs.Waits as spec;
ghost use Rattle.script_nodes.specs.Sound.{IsInRangeIf};

use crate::reader::NodeReader;
use crate::waits::Waits;
use expr_dag::DagFault;
use fx_model::{Direction, ExprId, Node, Rounding};

impl<'a> NodeReader<'a> {
    /// A sum waits for its right side.
    pub fn plus(&mut self, rounds: Option<Rounding>) -> Result<(), DagFault>
        requires { IsInRangeIf rounds }
        ensures reading { OnOk result (self.new
            ≡ spec.then_operation Waits.Sum self.old
            (spec.expr_done rounds self.old self.old.waits)) }
        ensures full { result ≡ Err DagFault.Full
            → 1024 < length (spec.then_operation Waits.Sum self.old
            (spec.expr_done rounds self.old self.old.waits)).known.nodes }
    {
        match self.expression(rounds)? {
            Some(left) => self.push(Waits::Sum(left)),
            None => Ok(()),
        }
    }

    /// A difference waits for its right side.
    pub fn minus(&mut self, rounds: Option<Rounding>) -> Result<(), DagFault>
        requires { IsInRangeIf rounds }
        ensures reading { OnOk result (self.new
            ≡ spec.then_operation Waits.Difference self.old
            (spec.expr_done rounds self.old self.old.waits)) }
        ensures full { result ≡ Err DagFault.Full
            → 1024 < length (spec.then_operation Waits.Difference self.old
            (spec.expr_done rounds self.old self.old.waits)).known.nodes }
    {
        match self.expression(rounds)? {
            Some(left) => self.push(Waits::Difference(left)),
            None => Ok(()),
        }
    }

    /// A product waits for its right side.
    pub fn times(&mut self) -> Result<(), DagFault>
        ensures reading { OnOk result
            (self.new ≡ spec.term_operation Waits.Product self.old self.old.waits) }
        ensures memory { IfErr result (λ fault. fault ≡ DagFault.OutOfMemory) }
    {
        match self.top() {
            Some(Waits::Term(left)) => {
                self.drop_top();
                self.push(Waits::Product(left))
            }
            _ => Ok(()),
        }
    }

    /// A quotient waits for its right side.
    pub fn over(&mut self) -> Result<(), DagFault>
        ensures reading { OnOk result
            (self.new ≡ spec.term_operation Waits.Quotient self.old self.old.waits) }
        ensures memory { IfErr result (λ fault. fault ≡ DagFault.OutOfMemory) }
    {
        match self.top() {
            Some(Waits::Term(left)) => {
                self.drop_top();
                self.push(Waits::Quotient(left))
            }
            _ => Ok(()),
        }
    }

    /// The number of an `fma`.
    fn fused(
        &mut self,
        rounds: Option<Rounding>,
        left: ExprId,
        right: ExprId,
        last: ExprId,
    ) -> Result<ExprId, DagFault>
        requires range { IsInRangeIf rounds }
        requires left { left.0 < length self.old.known.nodes }
        requires right { right.0 < length self.old.known.nodes }
        requires last { last.0 < length self.old.known.nodes }
        ensures put { IfOk result (λ x. (self.new.known, x)
            ≡ spec_values.fused_sum rounds left right (self.old.known, last)) }
        ensures waits { self.new.waits ≡ self.old.waits }
        ensures below { IfOk result (λ x. x.0 < length self.new.known.nodes) }
        ensures full { result ≡ Err DagFault.Full
            → 1024 < length (spec_values.fused_sum rounds left right
            (self.old.known, last)).0.nodes }
    {
        let product = self.add(Node::Mul(left, right))?;
        self.operation(rounds, Node::Add(product, last))
    }

    /// Takes an expression whose opening sign waits.
    fn enclosed(&mut self, rounds: Option<Rounding>, x: ExprId) -> Result<(), DagFault>
        requires range { IsInRangeIf rounds }
        requires below { x.0 < length self.old.known.nodes }
        ensures reading { OnOk result
            (self.new ≡ spec.closing rounds (self.old.known, x) self.old.waits) }
        ensures full { result ≡ Err DagFault.Full
            → 1024 < length (spec.closing rounds (self.old.known, x) self.old.waits).known.nodes }
    {
        let factor = match self.top() {
            Some(Waits::Paren) => x,
            Some(Waits::Bar) => self.add(Node::Abs(x))?,
            Some(Waits::Call(rounding)) => self.add(Node::Round(rounding, x))?,
            Some(Waits::FmaWithTwo(left, right)) => self.fused(rounds, left, right, x)?,
            _ => return self.push(Waits::Term(x)),
        };
        self.drop_top();
        self.factor(rounds, factor)
    }

    /// Takes the sign that closes an expression.
    pub fn close(&mut self, rounds: Option<Rounding>) -> Result<(), DagFault>
        requires { IsInRangeIf rounds }
        ensures reading { OnOk result (self.new
            ≡ spec.closed rounds self.old (spec.expr_done rounds self.old self.old.waits)) }
        ensures full { result ≡ Err DagFault.Full → 1024 < length
            (spec.closed rounds self.old
            (spec.expr_done rounds self.old self.old.waits)).known.nodes }
    {
        match self.expression(rounds)? {
            Some(x) => self.enclosed(rounds, x),
            None => Ok(()),
        }
    }

    /// Takes an operand of an `fma` that waits.
    fn part(&mut self, x: ExprId) -> Result<(), DagFault>
        requires { x.0 < length self.old.known.nodes }
        ensures reading { OnOk result (self.new ≡ spec.parting (self.old.known, x) self.old.waits) }
        ensures memory { IfErr result (λ fault. fault ≡ DagFault.OutOfMemory) }
    {
        match self.top() {
            Some(Waits::Fma) => {
                self.drop_top();
                self.push(Waits::FmaWithOne(x))
            }
            Some(Waits::FmaWithOne(left)) => {
                self.drop_top();
                self.push(Waits::FmaWithTwo(left, x))
            }
            _ => self.push(Waits::Term(x)),
        }
    }

    /// Takes the comma behind an expression.
    pub fn comma(&mut self, rounds: Option<Rounding>) -> Result<(), DagFault>
        requires { IsInRangeIf rounds }
        ensures reading { OnOk result (self.new
            ≡ spec.parted self.old (spec.expr_done rounds self.old self.old.waits)) }
        ensures full { result ≡ Err DagFault.Full → 1024 < length
            (spec.parted self.old (spec.expr_done rounds self.old self.old.waits)).known.nodes }
    {
        match self.expression(rounds)? {
            Some(x) => self.part(x),
            None => Ok(()),
        }
    }

    /// Takes the least significant bit of an operator.
    pub fn set_lsb(&mut self, lsb: i16) -> Result<(), DagFault>
        requires { IsBetween (negsuc 511) (pos 512) lsb }
        ensures reading { OnOk result (self.new ≡ spec.with_waits self.old
            (spec_operators.with_lsb (λ r. record { lsb = lsb; dir = r.dir }) self.old.waits)) }
        ensures memory { IfErr result (λ fault. fault ≡ DagFault.OutOfMemory) }
    {
        match self.top() {
            Some(Waits::Operator(rounding)) => {
                self.drop_top();
                self.push(Waits::Operator(Rounding {
                    lsb,
                    dir: rounding.dir,
                }))
            }
            _ => Ok(()),
        }
    }

    /// Takes the direction of an operator.
    pub fn set_direction(&mut self, dir: Direction) -> Result<(), DagFault>
        ensures reading { OnOk result (self.new ≡ spec.with_waits self.old
            (spec_operators.with_lsb (λ r. record { lsb = r.lsb; dir = dir }) self.old.waits)) }
        ensures memory { IfErr result (λ fault. fault ≡ DagFault.OutOfMemory) }
    {
        match self.top() {
            Some(Waits::Operator(rounding)) => {
                self.drop_top();
                self.push(Waits::Operator(Rounding {
                    lsb: rounding.lsb,
                    dir,
                }))
            }
            _ => Ok(()),
        }
    }

    /// Takes the end of an operator.
    pub fn end_operator(&mut self) -> Result<(), DagFault>
        ensures reading { OnOk result
            (self.new ≡ spec.with_waits self.old (spec_operators.operator_ended self.old.waits)) }
        ensures memory { IfErr result (λ fault. fault ≡ DagFault.OutOfMemory) }
    {
        match self.top() {
            Some(Waits::Operator(rounding)) => {
                self.drop_top();
                self.push(Waits::Call(rounding))
            }
            _ => Ok(()),
        }
    }
}
