//! What is complete: an operation, a factor, a term, an expression.

ghost use Rattle.std.specs.Prelude.{◌≡◌, ◌<◌, ◌≤◌, length, Some, None, Err, IfOk, OnOk};
ghost use Rattle.std.specs.Prelude.{MatchOption, IfSome, false};
ghost use Rattle.std.specs.Option.{IsSomeAnd};
ghost use Rattle.expr_dag.specs.Nodes.{IsLawful};
ghost use Rattle.script_nodes.specs.Known.{put};
ghost use Rattle.script_nodes.specs.Values as spec_values;
ghost use Rattle.script_nodes.specs.Waits as spec;
ghost use Rattle.script_nodes.specs.Sound.{IsInRangeIf, IsMade};

use crate::reader::NodeReader;
use crate::waits::Waits;
use expr_dag::DagFault;
use fx_model::{ExprId, Node, Rounding};

impl<'a> NodeReader<'a> {
    /// The number of an operation, rounded where the definition's operations are.
    pub fn operation(&mut self, rounds: Option<Rounding>, node: Node) -> Result<ExprId, DagFault>
        requires range { IsInRangeIf rounds }
        requires lawful { IsLawful (length self.old.known.nodes) node }
        requires made { IsMade node }
        ensures put { IfOk result (λ x. (self.new.known, x)
            ≡ spec_values.then_rounded rounds (put self.old.known node)) }
        ensures waits { self.new.waits ≡ self.old.waits }
        ensures below { IfOk result (λ x. x.0 < length self.new.known.nodes) }
        ensures longer { length self.old.known.nodes ≤ length self.new.known.nodes }
        ensures full { result ≡ Err DagFault.Full
            → 1024 < length (spec_values.then_rounded rounds (put self.old.known node)).0.nodes }
    {
        let x = self.add(node)?;
        match rounds {
            Some(rounding) => self.add(Node::Round(rounding, x)),
            None => Ok(x),
        }
    }

    fn is_minus_first(&self) -> bool
        ensures { result ≡ spec.is_minus_first self.now.waits }
    {
        matches!(self.top(), Some(Waits::Minus))
    }

    /// The number of a factor with the minus signs before it.
    fn signed(&mut self, rounds: Option<Rounding>, factor: ExprId) -> Result<ExprId, DagFault>
        requires { factor.0 < length self.old.known.nodes }
        ensures reading { IfOk result
            (λ x. spec.factor_done rounds self.old.waits (self.old.known, factor)
            ≡ spec.factor_done rounds self.new.waits (self.new.known, x)) }
        ensures first { OnOk result (spec.is_minus_first self.new.waits ≡ false) }
        ensures below { IfOk result (λ x. x.0 < length self.new.known.nodes) }
        ensures full { result ≡ Err DagFault.Full
            → 1024 < length (spec.factor_done rounds self.old.waits
            (self.old.known, factor)).known.nodes }
    {
        let mut factor = factor;
        while self.is_minus_first() {
            self.drop_top();
            factor = self.add(Node::Neg(factor))?;
        }
        Ok(factor)
    }

    /// Takes a factor that is complete.
    pub fn factor(&mut self, rounds: Option<Rounding>, factor: ExprId) -> Result<(), DagFault>
        requires range { IsInRangeIf rounds }
        requires below { factor.0 < length self.old.known.nodes }
        ensures reading { OnOk result (self.new
            ≡ spec.factor_done rounds self.old.waits (self.old.known, factor)) }
        ensures full { result ≡ Err DagFault.Full
            → 1024 < length (spec.factor_done rounds self.old.waits
            (self.old.known, factor)).known.nodes }
    {
        let factor = self.signed(rounds, factor)?;
        let term = match self.top() {
            Some(Waits::Product(left)) => {
                self.drop_top();
                self.operation(rounds, Node::Mul(left, factor))?
            }
            Some(Waits::Quotient(left)) => {
                self.drop_top();
                self.operation(rounds, Node::Div(left, factor))?
            }
            _ => factor,
        };
        self.push(Waits::Term(term))
    }

    /// The number of an expression that ends with this term.
    fn sum(&mut self, rounds: Option<Rounding>, term: ExprId) -> Result<ExprId, DagFault>
        requires range { IsInRangeIf rounds }
        requires below { term.0 < length self.old.known.nodes }
        ensures reading { IfOk result (λ x. ((self.new.known, x), self.new.waits)
            ≡ spec.term_done rounds self.old.known term self.old.waits) }
        ensures below { IfOk result (λ x. x.0 < length self.new.known.nodes) }
        ensures full { result ≡ Err DagFault.Full
            → 1024 < length (spec.term_done rounds self.old.known term self.old.waits).0.0.nodes }
    {
        match self.top() {
            Some(Waits::Sum(left)) => {
                self.drop_top();
                self.operation(rounds, Node::Add(left, term))
            }
            Some(Waits::Difference(left)) => {
                self.drop_top();
                self.operation(rounds, Node::Sub(left, term))
            }
            _ => Ok(term),
        }
    }

    /// The number of the expression that ends here, where a term waits.
    pub fn expression(&mut self, rounds: Option<Rounding>) -> Result<Option<ExprId>, DagFault>
        requires { IsInRangeIf rounds }
        ensures reading { IfOk result (λ found. MatchOption found
            ((spec.expr_done rounds self.old self.old.waits ≡ None) × (self.new ≡ self.old))
            (λ x. spec.expr_done rounds self.old self.old.waits
            ≡ Some ((self.new.known, x), self.new.waits))) }
        ensures below { IfOk result
            (λ found. IfSome found (λ x. x.0 < length self.new.known.nodes)) }
        ensures full { result ≡ Err DagFault.Full
            → IsSomeAnd (spec.expr_done rounds self.old self.old.waits)
            (λ c. 1024 < length c.0.0.nodes) }
    {
        match self.top() {
            Some(Waits::Term(term)) => {
                self.drop_top();
                let x = self.sum(rounds, term)?;
                Ok(Some(x))
            }
            _ => Ok(None),
        }
    }
}
