//! The claims of the propositions that were read.

ghost use Rattle.std.specs.Prelude.{◌≡◌, ◌<◌, ◌≤◌, All, Some, slice_get, IfOk, OnOk, OnErr};
ghost use Rattle.std.specs.List.{flat_map, AllByRecursion};
ghost use Rattle.script_cases.specs.Cases.{cases, case_count};
ghost use Rattle.script_claims.specs.Claims as spec;
ghost use Rattle.script_claims.specs.Facts.{HasNormalBounds};

use crate::claim::Claim;
use script_cases::{Conjunctions, Parts};
use std::alloc::{AllocError, Global};
use std::marker::Model;

/// Claims in the order of writing, by parts and conjunctions: those before the last arrow are
/// hypotheses, and the others goals.
#[derive(Drop)]
pub struct Sides {
    parts: Parts<Claim>,
    // How many are hypotheses.
    assumed: usize,
}

impl Model for Sides {
    ghost use Rattle.std.specs.Prelude.{◌≤◌, All, length, take, drop};
    ghost use Rattle.script_claims.specs.Claims.{Sides as View};
    ghost use Rattle.script_claims.specs.Facts.{HasNormalBounds};
    ghost use Rattle.script_claims.specs.Ranges.{AllInParts};

    ghost Value = { View };

    ghost view = { λ s. record {
      hypotheses = take s.assumed s.parts.items;
      goals = drop s.assumed s.parts.items;
      parts = s.parts;
    } };

    ghost invariant = { λ s. (s.assumed ≤ length s.parts.items)
        × All HasNormalBounds s.parts.items × AllInParts HasNormalBounds s.parts };
}

impl Sides {
    /// No claims. It takes no memory.
    pub fn new(alloc: Global) -> Sides
        ensures { result ≡ spec.no_sides }
    {
        Sides {
            parts: Parts::new(alloc),
            assumed: 0,
        }
    }

    /// One more goal.
    pub fn add(&mut self, claim: Claim) -> Result<(), AllocError>
        requires { HasNormalBounds claim }
        ensures added { OnOk result (self.new ≡ spec.with_goal self.old claim) }
        ensures refused { OnErr result (self.new ≡ self.old) }
    {
        self.parts.add(claim)?;
        Ok(())
    }

    /// Ends a conjunction.
    pub(crate) fn disjoin(&mut self) -> Result<(), AllocError>
        ensures { OnOk result (self.new ≡ spec.behind_or_sign self.old) }
    {
        self.parts.end_conjunction()?;
        Ok(())
    }

    /// Makes hypotheses of all goals. After an `Err` it is not to be used on.
    pub fn assume(&mut self) -> Result<(), AllocError>
        ensures { OnOk result (self.new ≡ spec.behind_arrow self.old) }
    {
        self.assumed = self.parts.items().len();
        self.parts.end_part()?;
        Ok(())
    }

    /// The hypotheses.
    pub fn hypotheses(&self) -> &[Claim]
        ensures value { result.now ≡ self.now.hypotheses }
        ensures normal { All HasNormalBounds result.now }
    {
        &self.parts.items()[..self.assumed]
    }

    /// The goals.
    pub fn goals(&self) -> &[Claim]
        ensures value { result.now ≡ self.now.goals }
        ensures normal { All HasNormalBounds result.now }
    {
        &self.parts.items()[self.assumed..]
    }

    /// How many cases the hypotheses have, where they are few.
    pub fn case_count(&self) -> usize
        requires { case_count self.now.parts.before ≤ 64 }
        ensures count { result ≡ case_count self.now.parts.before }
        ensures some { 0 < result }
    {
        self.parts.case_count()
    }

    /// The conjunctions that the case with this number takes.
    pub fn conjunctions(&self, number: usize) -> Conjunctions<'_, Claim>
        requires few { case_count self.now.parts.before ≤ 64 }
        requires number { number < case_count self.now.parts.before }
        ensures case { slice_get (cases self.now.parts.before) number
            ≡ Some (flat_map (λ c. c) result) }
        ensures normal { AllByRecursion (AllByRecursion HasNormalBounds) result }
    {
        self.parts.conjunctions(number)
    }

    /// The claims of the case with this number.
    pub fn case(&self, alloc: Global, number: usize) -> Result<Vec<Claim>, AllocError>
        requires few { case_count self.now.parts.before ≤ 64 }
        requires number { number < case_count self.now.parts.before }
        ensures { IfOk result (λ case.
            slice_get (cases self.now.parts.before) number ≡ Some case.items) }
    {
        self.parts.case(alloc, number)
    }
}
