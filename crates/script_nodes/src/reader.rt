//! The nodes of expressions, and what their words have left open.

ghost use Rattle.std.specs.Prelude.{◌≡◌, ◌<◌, ◌≤◌, [], ◌∷◌, length, Some, None, Err, IfOk, OnOk};
ghost use Rattle.std.specs.Prelude.{OnErr, IfErr, IfSome, MatchOption};
ghost use Rattle.expr_dag.specs.Nodes.{IsLawful};
ghost use Rattle.script_nodes.specs.Known as spec;
ghost use Rattle.script_nodes.specs.Definitions as spec_definitions;
ghost use Rattle.script_nodes.specs.Waits.{Reading, then_waits, with_waits, rest};
ghost use Rattle.script_nodes.specs.Sound.{Fits, IsInRange, IsMade, IsSound};

use crate::names::{Operators, Values, Variables};
use crate::waits::Waits;
use expr_dag::{Dag, DagFault};
use fx_model::{Direction, ExprId, Node, Rounding};
use std::alloc::Global;
use std::marker::Model;

/// Rounding to whole numbers toward 0.
pub(crate) const NO_ROUNDING: Rounding = Rounding {
    lsb: 0,
    dir: Direction::Zr,
};

/// The nodes, variables, values and operators of what was read, and what waits for an operand.
#[derive(Drop)]
pub struct NodeReader<'a> {
    dag: Dag,
    variables: Variables<'a>,
    values: Values<'a>,
    operators: Operators<'a>,
    // The last is the first to be taken.
    waits: Vec<Waits>,
}

impl<'a> Model for NodeReader<'a> {
    ghost use Rattle.std.specs.Prelude.{reverse};
    ghost use Rattle.script_nodes.specs.Waits.{Reading};
    ghost use Rattle.script_nodes.specs.Sound.{IsSound};

    ghost Value = { Reading };

    ghost view = { λ r. record {
      known = record {
        nodes = r.dag;
        variables = r.variables;
        values = r.values;
        operators = r.operators;
      };
      waits = reverse r.waits.items;
    } };

    ghost invariant = { λ r. IsSound (record {
      known = record {
        nodes = r.dag;
        variables = r.variables;
        values = r.values;
        operators = r.operators;
      };
      waits = reverse r.waits.items;
    }) };
}

impl<'a> NodeReader<'a> {
    /// Nothing is read yet. It takes no memory.
    pub fn new(alloc: Global) -> NodeReader<'a>
        ensures { result ≡ record { known = spec.nothing_known; waits = [] } }
    {
        NodeReader {
            dag: Dag::new(alloc),
            variables: Variables::new(alloc),
            values: Values::new(alloc),
            operators: Operators::new(alloc),
            waits: Vec::new(alloc),
        }
    }

    /// What it holds is sound at all times, behind an `Err` too.
    pub fn laws(&self)
        ensures { IsSound self.now }
    {
        let _nodes = &self.dag;
    }

    /// The number of a node that is no variable. It goes last where it isn't there. `Full` where it
    /// isn't, and 1,024 others are.
    pub fn add(&mut self, node: Node) -> Result<ExprId, DagFault>
        requires lawful { IsLawful (length self.old.known.nodes) node }
        requires made { IsMade node }
        ensures put { IfOk result (λ x. (self.new.known, x) ≡ spec.put self.old.known node) }
        ensures waits { self.new.waits ≡ self.old.waits }
        ensures below { IfOk result (λ x. x.0 < length self.new.known.nodes) }
        ensures longer { length self.old.known.nodes ≤ length self.new.known.nodes }
        ensures full { result ≡ Err DagFault.Full
            → 1024 < length (spec.put self.old.known node).0.nodes }
        ensures refused { OnErr result (self.new ≡ self.old) }
    {
        self.dag.laws();
        self.dag.add(node)
    }

    /// The number of a variable's node. It goes last where it isn't there. `Full` where it isn't,
    /// and 1,024 others are.
    pub fn variable(&mut self, name: &'a [u8]) -> Result<ExprId, DagFault>
        ensures put { IfOk result
            (λ x. (self.new.known, x) ≡ spec.variable_put self.old.known name.now) }
        ensures waits { self.new.waits ≡ self.old.waits }
        ensures below { IfOk result (λ x. x.0 < length self.new.known.nodes) }
        ensures longer { length self.old.known.nodes ≤ length self.new.known.nodes }
        ensures full { result ≡ Err DagFault.Full
            → 1024 < length (spec.variable_put self.old.known name.now).0.nodes }
        ensures refused { OnErr result (self.new ≡ self.old) }
    {
        self.dag.laws();
        let len = self.variables.len();
        let Ok(place) = self.variables.put(name) else {
            return Err(DagFault::OutOfMemory);
        };
        match self.dag.add(Node::Var(place as u16)) {
            Ok(x) => Ok(x),
            Err(fault) => {
                self.variables.truncate(len);
                Err(fault)
            }
        }
    }

    /// The number of a value's node, or none.
    pub fn value(&self, name: &'a [u8]) -> Option<ExprId>
        ensures entry { result ≡ spec.entry_of self.now.known.values name.now }
        ensures below { IfSome result (λ x. x.0 < length self.now.known.nodes) }
    {
        self.values.get(name)
    }

    /// The number of a name's node: that of its value, or of its variable, where it has one.
    pub fn number(&self, name: &'a [u8]) -> Option<ExprId>
        ensures number { result ≡ spec.number_of self.now.known name.now }
        ensures below { IfSome result (λ x. x.0 < length self.now.known.nodes) }
    {
        self.dag.laws();
        match self.value(name) {
            Some(x) => Some(x),
            None => match self.variables.place(name) {
                Some(place) => self.dag.find(Node::Var(place as u16)),
                None => None,
            },
        }
    }

    /// The rounding of an operator. Where the name isn't an operator's, it is to whole numbers
    /// toward 0.
    pub fn operator(&self, name: &'a [u8]) -> Rounding
        ensures rounding { result ≡ spec.operator_named self.now.known name.now }
        ensures range { IsInRange result }
    {
        match self.operators.get(name) {
            Some(rounding) => rounding,
            None => NO_ROUNDING,
        }
    }

    /// The nodes.
    pub fn dag(&self) -> &Dag
        ensures { result.now ≡ self.now.known.nodes }
    {
        &self.dag
    }

    /// The variables, in the order of their first use.
    pub fn variables(&self) -> &Variables<'a>
        ensures { result.now ≡ self.now.known.variables }
    {
        &self.variables
    }

    /// Gives a name a value. `Err` only where memory runs out.
    pub fn define_value(&mut self, name: &'a [u8], value: ExprId) -> Result<(), DagFault>
        requires { value.0 < length self.old.known.nodes }
        ensures reading { OnOk result (self.new ≡ record {
          known = spec_definitions.with_value name.now (self.old.known, value);
          waits = self.old.waits;
        }) }
        ensures memory { IfErr result (λ fault. fault ≡ DagFault.OutOfMemory) }
        ensures refused { OnErr result (self.new ≡ self.old) }
    {
        match self.values.put(name, value) {
            Ok(()) => Ok(()),
            Err(_) => Err(DagFault::OutOfMemory),
        }
    }

    /// Gives a name a rounding. `Err` only where memory runs out.
    pub fn define_operator(&mut self, name: &'a [u8], rounding: Rounding) -> Result<(), DagFault>
        requires { IsInRange rounding }
        ensures reading { OnOk result (self.new ≡ record {
          known = spec_definitions.with_operator name.now rounding self.old.known;
          waits = self.old.waits;
        }) }
        ensures memory { IfErr result (λ fault. fault ≡ DagFault.OutOfMemory) }
        ensures refused { OnErr result (self.new ≡ self.old) }
    {
        match self.operators.put(name, rounding) {
            Ok(()) => Ok(()),
            Err(_) => Err(DagFault::OutOfMemory),
        }
    }

    /// Lets something wait. `Err` only where memory runs out.
    pub fn push(&mut self, wait: Waits) -> Result<(), DagFault>
        requires { Fits (length self.old.known.nodes) wait }
        ensures reading { OnOk result (self.new ≡ then_waits wait self.old) }
        ensures memory { IfErr result (λ fault. fault ≡ DagFault.OutOfMemory) }
        ensures refused { OnErr result (self.new ≡ self.old) }
    {
        let Ok(()) = self.waits.push(wait) else {
            return Err(DagFault::OutOfMemory);
        };
        Ok(())
    }

    /// What waits last. None where nothing waits.
    pub fn top(&self) -> Option<Waits>
        ensures top { MatchOption result (self.now.waits ≡ [])
            (λ wait. self.now.waits ≡ wait ∷ rest self.now.waits) }
        ensures fits { IfSome result (Fits (length self.now.known.nodes)) }
    {
        self.waits.last().copied()
    }

    /// Lets go of what waits, the last first.
    pub(crate) fn drop_top(&mut self)
        ensures { self.new ≡ with_waits self.old (rest self.old.waits) }
    {
        self.waits.pop();
    }
}
