//! The steps that a box's facts come by.
ghost use Rattle.std.specs.Prelude.{◌≡◌, ◌<◌, ◌+◌, ◌^◌, [], Some, IfNone, IfSome, OnOk, length};
ghost use Rattle.facts.specs.Order.{slot_of, IsStronger};
ghost use Rattle.derivation.specs.Exists.{joined};
ghost use Rattle.rule_universe.specs.Places.{IsPlace};
ghost use Rattle.cert_checker.specs.Given.{given_number};
ghost use Rattle.tree_certificates.specs.Coming.{with_by};
ghost use Rattle.box_trace.specs.declared.known.Cited.{Cited as Row};
ghost use Rattle.box_trace.specs.Tables.{fact_of, number_of, number_or, HasRows};
ghost use Rattle.box_trace.specs.Logs.{Comes, IsMetBy};

use crate::known::{Cited, Known};
use cert_bytes::StepRow;
use cert_checker::Given;
use facts::{Fact, meet, slot, stronger};
use fx_edge::Items;
use rule_universe::Universe;
use std::alloc::{AllocError, Global};

/// The steps so far, the first with this number, and what they come to.
#[derive(Drop)]
pub(crate) struct Log {
    pub(crate) first: u64,
    pub(crate) steps: Vec<StepRow>,
    pub(crate) known: Known,
}

/// By what a fact comes: a rule, its argument, and the steps of its premises.
#[derive(Drop)]
pub(crate) struct Source {
    pub(crate) rule: u8,
    pub(crate) arg: u16,
    pub(crate) premises: Items<u64>,
}

impl Source {
    // What is given takes no premises.
    pub(crate) fn given(alloc: Global, given: Given, arg: u16) -> Source
        ensures rule { result.rule ≡ given_number given }
        ensures arg { result.arg ≡ arg }
        ensures premises { result.premises ≡ [] }
    {
        Source {
            rule: given.number(),
            arg,
            premises: Items::from_vec(Vec::new(alloc)),
        }
    }
}

// The meet of what is known on a slot and a fact that comes there; nothing where what is known is
// as strong.
fn met(row: Cited, c: Fact) -> Option<Fact>
    requires { slot_of row.fact ≡ slot_of c }
    ensures none { IfNone result (IsStronger row.fact c) }
    ensures some { IfSome result (λ k. k ≡ joined (Some row.fact) c) }
    ensures with { IfSome result (λ k. Some row.number ≡ with_by (Some row.fact) row.number c) }
{
    if stronger(&row.fact, &c) {
        return None;
    }
    match meet(&row.fact, &c) {
        Some(fact) => Some(fact),
        None => unreachable!(),
    }
}

// What is kept where a fact comes to a row; nothing where what stands there is as strong.
fn kept(found: Option<Cited>, c: Fact) -> Option<Fact>
    requires { (row : Row) → found ≡ Some row → slot_of row.fact ≡ slot_of c }
    ensures none { IfNone result ((row : Row) × (found ≡ Some row) × IsStronger row.fact c) }
    ensures some { IfSome result (λ k. k ≡ joined (fact_of found) c) }
    ensures with { IfSome result
        (λ k. number_of found ≡ with_by (fact_of found) (number_or found) c) }
{
    match found {
        Some(row) => met(row, c),
        None => Some(c),
    }
}

// The number of the step that the one of a fact, which comes by this rule, is met with: that of
// what stands in the row; but nothing where the fact alone is as strong. What is given is met
// always, since a cut's piece may leave more than what is known.
fn met_number(found: Option<Cited>, c: &Fact, rule: u8) -> Option<u64>
    ensures { IsMetBy rule found c.now result }
{
    match found {
        Some(row) => {
            if rule < Given::Hypothesis.number() && stronger(c, &row.fact) {
                None
            } else {
                Some(row.number)
            }
        }
        None => None,
    }
}

impl Log {
    // Keeps the meet of the fact and what is known on its slot, whose place is given, by one step,
    // where that is more than was known.
    pub(crate) fn come(
        &mut self,
        uni: &Universe,
        c: Fact,
        place: u16,
        source: Source,
    ) -> Result<(), AllocError>
        requires place { IsPlace (length uni.now.nodes) uni.now.pairs (slot_of c) place }
        requires rows { HasRows uni.now self.old.known }
        requires room { self.old.first + length self.old.steps.items < 2 ^ 64 }
        ensures { OnOk result
            (Comes uni.now self.old source.rule source.arg source.premises c self.new) }
    {
        uni.laws();
        let found = self.known.at(place);
        let Some(fact) = kept(found, c) else {
            return Ok(());
        };
        let with = met_number(found, &c, source.rule);
        let number = self.first + self.steps.len() as u64;
        let here = uni.place(slot(&fact));
        self.steps.push(StepRow {
            rule: source.rule,
            arg: source.arg,
            fact,
            with,
            premises: source.premises,
        })?;
        self.known.put(here, Cited { fact, number });
        Ok(())
    }
}
