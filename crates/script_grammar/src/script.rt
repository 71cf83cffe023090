// A script as it is read.
ghost use Rattle.std.specs.Prelude.{◌≡◌, ◌<◌, ◌≤◌, All, Some, length, slice_get, IfOk};
ghost use Rattle.std.specs.List.{AllByRecursion};
ghost use Rattle.std.specs.Option.{option_copied};
ghost use Rattle.fx_model.specs.Expression.{IsOrdered};
ghost use Rattle.script_cases.specs.Cases.{cases};
ghost use Rattle.script_claims.specs.Facts.{HasNormalBounds as HasNormalClaimBounds};
ghost use Rattle.script_hints.specs.Needs.{HasNormalBounds};
ghost use Rattle.script_grammar.specs.CountedHints.{HasFewHints};
ghost use Rattle.script_grammar.specs.SplitRanges.{HaveRanges};
ghost use Rattle.script_grammar.specs.Ranges.{HasFewCases};
ghost use Rattle.script_grammar.specs.Names.{NamesNodes};

use crate::laws::{
    spelled_have_few_cases, spelled_have_few_goals, spelled_have_few_hints, spelled_have_ranges,
    spelled_name_nodes,
};
use expr_dag::Dag;
use goal_spans::Span;
use script_claims::{Claim, Sides};
use script_hints::hint::HintList;
use script_nodes::reader::NodeReader;
use script_words::lex::Token;
use std::alloc::{AllocError, Global};
use std::marker::Model;

/// A script, with the text that spells it.
#[derive(Drop)]
pub struct Script<'a> {
    text: &'a [u8],
    tokens: Vec<Token>,
    // Its nodes, and the names of its variables.
    nodes: NodeReader<'a>,
    sides: Sides,
    // Which tokens are the expression of each goal.
    spans: Vec<Span>,
    hints: HintList,
}

impl<'a> Model for Script<'a> {
    ghost use Rattle.std.specs.Prelude.{All};
    ghost use Rattle.script_hints.specs.Needs.{HasNormalBounds};
    ghost use Rattle.script_grammar.specs.Spells.{View, Spells};

    ghost Value = { View };

    ghost view = { λ s. record {
      text = s.text.now;
      tokens = s.tokens.items;
      nodes = s.nodes.known.nodes;
      variables = s.nodes.known.variables;
      hypotheses = s.sides.hypotheses;
      parts = s.sides.parts.before;
      goals = s.sides.goals;
      spans = s.spans.items;
      hints = s.hints;
    } };

    ghost invariant = { λ s. Spells s.text.now (record {
      text = s.text.now;
      tokens = s.tokens.items;
      nodes = s.nodes.known.nodes;
      variables = s.nodes.known.variables;
      hypotheses = s.sides.hypotheses;
      parts = s.sides.parts.before;
      goals = s.sides.goals;
      spans = s.spans.items;
      hints = s.hints;
    }) × All HasNormalBounds s.hints.rewrites };
}

impl<'a> Script<'a> {
    ghost use Rattle.script_grammar.specs.Spells.{Spells, IsSpelled};

    // The script that was read from the text.
    pub(crate) fn new(
        text: &'a [u8],
        tokens: Vec<Token>,
        nodes: NodeReader<'a>,
        sides: Sides,
        spans: Vec<Span>,
        hints: HintList,
    ) -> Script<'a>
        requires spelled { IsSpelled text.now tokens.items nodes.known sides spans.items hints }
        requires normal { All HasNormalBounds hints.rewrites }
        ensures { Spells text.now result }
    {
        Script {
            text,
            tokens,
            nodes,
            sides,
            spans,
            hints,
        }
    }

    /// The text.
    pub fn text(&self) -> &'a [u8]
        ensures { result.now ≡ self.now.text }
    {
        self.text
    }

    /// Its tokens, by their places in the text.
    pub fn tokens(&self) -> &[Token]
        ensures { result.now ≡ self.now.tokens }
    {
        self.tokens.as_slice()
    }

    /// The nodes of its expressions.
    pub fn nodes(&self) -> &Dag
        ensures { result.now ≡ self.now.nodes }
    {
        self.nodes.dag()
    }

    /// The name of the variable with this number (`Var` of `Node`), if there is one.
    pub fn variable(&self, number: u16) -> Option<&'a [u8]>
        ensures { option_copied result ≡ slice_get self.now.variables number }
    {
        self.nodes.variables().get(usize::from(number))
    }

    /// How many variables it has.
    pub fn variable_count(&self) -> u16
        ensures { result ≡ length self.now.variables }
    {
        self.nodes.laws();
        self.nodes.dag().laws();
        self.nodes.variables().len() as u16
    }

    /// What its formula claims before the last arrow.
    pub fn hypotheses(&self) -> &[Claim]
        ensures value { result.now ≡ self.now.hypotheses }
        ensures normal { All HasNormalClaimBounds result.now }
    {
        self.sides.hypotheses()
    }

    /// How many cases its hypotheses have: one conjunction of each part, 1 to 64.
    pub fn case_count(&self) -> usize
        ensures value { result ≡ length (cases self.now.parts) }
        ensures some { 0 < result }
        ensures few { result ≤ 64 }
    {
        self.laws();
        self.sides.case_count()
    }

    /// What is claimed in the case with this number, counted from 0. They are in lexicographic
    /// order of the conjunctions taken, the first part slowest.
    pub fn case(&self, alloc: Global, number: usize) -> Result<Vec<Claim>, AllocError>
        requires { number < length (cases self.now.parts) }
        ensures value { IfOk result (λ case.
            slice_get (cases self.now.parts) number ≡ Some case.items) }
        ensures normal { IfOk result (λ case. All HasNormalClaimBounds case.items) }
    {
        self.laws();
        self.hypotheses();
        self.sides.case(alloc, number)
    }

    /// What its formula claims behind the last arrow, or all that it claims where there is none.
    pub fn goals(&self) -> &[Claim]
        ensures value { result.now ≡ self.now.goals }
        ensures normal { All HasNormalClaimBounds result.now }
    {
        self.sides.goals()
    }

    /// Which of its tokens are the expression of each goal, with both sides of a relative one.
    pub fn goal_spans(&self) -> &[Span]
        ensures { result.now ≡ self.now.spans }
    {
        self.spans.as_slice()
    }

    /// Nothing is done. The clauses tell a caller that the text spells the script, that each node
    /// is made of earlier ones, that the claims and the hints speak of its nodes, that the hints
    /// are few, and the goals too, that the hypotheses are those of all conjunctions and have few
    /// cases, and that in each of them the variables that the hints split have ranges.
    pub fn laws(&self)
        ensures spelled { Spells self.now.text self.now }
        ensures ordered { IsOrdered self.now.nodes }
        ensures names { NamesNodes self.now }
        ensures few { HasFewHints self.now.hints }
        ensures goals { length self.now.goals ≤ 128 }
        ensures cases { HasFewCases self.now }
        ensures ranges { AllByRecursion (λ claims.
            HaveRanges claims self.now.hints) (cases self.now.parts) }
    {
        spelled_name_nodes();
        spelled_have_few_hints();
        spelled_have_few_goals();
        spelled_have_ranges();
        spelled_have_few_cases();
        self.nodes.dag().laws();
    }

    /// What its hints say.
    pub fn hints(&self) -> &HintList
        ensures value { result.now ≡ self.now.hints }
        ensures normal { All HasNormalBounds result.now.rewrites }
    {
        &self.hints
    }
}
