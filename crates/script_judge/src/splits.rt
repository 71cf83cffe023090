//! Split ranges of variables, and points that split them.

ghost use Rattle.std.specs.Prelude.{◌≡◌, ◌≤◌, ◌<◌, ◌&&◌, not, map, Some, slice_get, IfOk, OnOk};
ghost use Rattle.std.specs.List.{flat_map, list_any, AllByRecursion};
ghost use Rattle.std.specs.Option.{option_copied, option_map};
ghost use Rattle.dyadic.specs.Values.{value_of as grid_value};
ghost use Rattle.literal_order.specs.Values.{written_value, IsWritten};
ghost use Rattle.script_words.specs.Named.{word_of};
ghost use Rattle.script_cases.specs.Cases.{case_count};
ghost use Rattle.script_bounds.specs.Tests.{is_less};
ghost use Rattle.script_claims.specs.Facts.{HasNormalBounds};
ghost use Rattle.script_claims.specs.Ranges as claims;
ghost use Rattle.script_judge.specs.declared.splits.CaseRanges.{CaseRanges};
ghost use Rattle.script_judge.specs.SplitViews.{said_if, splits_seen, AreRangesOf, AreKept};
ghost use Rattle.script_judge.specs.SplitViews.{HasFewCases};
ghost use Rattle.script_judge.specs.Names as names;
ghost use Rattle.script_judge.specs.Splits as spec;

use crate::formula::Formula;
use crate::names::split_name;
use dyadic::Dyadic;
use fx_model::ExprId;
use literal_order::Written;
use script_bounds::down;
use script_cases::Conjunctions;
use script_claims::{Claim, Sides, SplitRange, split_range};
use script_shape::due::Due;
use script_words::words::Word;
use std::alloc::{AllocError, Global};

/// The range of a variable in a case, which takes these conjunctions.
fn range_in(conjunctions: Conjunctions<'_, Claim>, x: ExprId) -> Option<SplitRange>
    requires { AllByRecursion (AllByRecursion HasNormalBounds) conjunctions }
    ensures { result ≡ claims.split_range (flat_map (λ c. c) conjunctions.entry) x }
{
    let mut conjunctions = conjunctions;
    while let Some(claims) = conjunctions.next() {
        let range = split_range(claims, x);
        if range.is_some() {
            return range;
        }
    }
    None
}

/// Whether a range is missing.
fn lacks_some(ranges: &[Option<SplitRange>]) -> bool
    ensures { result ≡ list_any spec.is_none ranges.now }
{
    let mut ranges = ranges;
    while let [range, later @ ..] = ranges {
        if range.is_none() {
            return true;
        }
        ranges = later;
    }
    false
}

/// A variable that is split, with its range in each case of the formula.
#[derive(Drop)]
struct CaseRanges {
    var: ExprId,
    cases: Vec<Option<SplitRange>>,
    /// Whether one is missing.
    lacks: bool,
}

/// The range of a variable in each case of what a formula claims.
fn case_ranges(alloc: Global, sides: &Sides, var: ExprId) -> Result<CaseRanges, AllocError>
    requires { case_count sides.now.parts.before ≤ 64 }
    ensures ranges { IfOk result (AreRangesOf sides.now.parts.before) }
    ensures var { IfOk result (λ ranges. ranges.var ≡ var) }
{
    let mut cases = Vec::new(alloc);
    for number in 0..sides.case_count() {
        cases.push(range_in(sides.conjunctions(number), var))?;
    }
    let lacks = lacks_some(cases.as_slice());
    Ok(CaseRanges { var, cases, lacks })
}

fn some_down(number: Option<Written>) -> Option<Dyadic>
    requires { IsWritten number }
    ensures { option_map grid_value result ≡ spec.some_down (option_map written_value number) }
{
    match number {
        Some(number) => down(number),
        None => None,
    }
}

/// The point that stands before the next token.
fn before_after(before: Option<Dyadic>, number: Option<Written>, role: Due) -> Option<Dyadic>
    requires { IsWritten number }
    ensures { option_map grid_value result ≡ spec.before_after (option_map grid_value before)
        (option_map written_value number) role }
{
    match role {
        Due::Cut => None,
        Due::Bound => some_down(number),
        _ => before,
    }
}

fn is_under(a: Dyadic, b: Dyadic) -> bool
    ensures { result ≡ is_less (grid_value a) (grid_value b) }
{
    a.is_below(b)
}

fn is_after(before: Option<Dyadic>, point: Dyadic) -> bool
    ensures { result ≡ spec.is_after (option_map grid_value before) (grid_value point) }
{
    match before {
        Some(before) => is_under(before, point),
        None => true,
    }
}

fn is_inside(point: Dyadic, range: Option<SplitRange>) -> bool
    ensures { result ≡ spec.is_inside (grid_value point) range }
{
    match range {
        Some(range) => is_under(range.low, point) && is_under(point, range.high),
        None => false,
    }
}

fn is_inside_some(point: Dyadic, ranges: &[Option<SplitRange>]) -> bool
    ensures { result ≡ list_any (spec.is_inside (grid_value point)) ranges.now }
{
    let mut ranges = ranges;
    while let [range, later @ ..] = ranges {
        if is_inside(point, *range) {
            return true;
        }
        ranges = later;
    }
    false
}

fn splits_at(cut: &[Option<SplitRange>], before: Option<Dyadic>, point: Option<Dyadic>) -> bool
    ensures { result ≡ spec.splits_at cut.now (option_map grid_value before)
        (option_map grid_value point) }
{
    match point {
        Some(point) => is_inside_some(point, cut) && is_after(before, point),
        None => false,
    }
}

fn is_no_split(cut: &[Option<SplitRange>], before: Option<Dyadic>, number: Option<Written>) -> bool
    requires { IsWritten number }
    ensures { result ≡ spec.is_no_split cut.now (option_map grid_value before)
        (option_map written_value number) }
{
    match number {
        Some(number) => !splits_at(cut, before, down(number)),
        None => false,
    }
}

/// What stands before a token.
#[derive(Drop)]
pub struct Splits {
    alloc: Global,
    /// The variables that were split, each once.
    ranges: Vec<CaseRanges>,
    /// The place of the last, or none.
    cut: usize,
    /// The point before, rounded down.
    before: Option<Dyadic>,
}

impl Splits {
    /// Before the first token.
    pub fn new(alloc: Global) -> Splits
        ensures seen { splits_seen result ≡ spec.no_splits }
        ensures kept { AreKept (said_if None) result.ranges.items }
    {
        Splits {
            alloc,
            ranges: Vec::new(alloc),
            cut: 0,
            before: None,
        }
    }

    /// The place of a variable's ranges, which are kept from then on.
    fn place_of(&mut self, sides: &Sides, x: ExprId) -> Result<usize, AllocError>
        requires few { case_count sides.now.parts.before ≤ 64 }
        requires kept { AllByRecursion (AreRangesOf sides.now.parts.before) self.old.ranges.items }
        ensures found { IfOk result (λ place. (ranges : CaseRanges)
            × (slice_get self.new.ranges.items place ≡ Some ranges) × (ranges.var ≡ x)) }
        ensures kept { OnOk result
            (AllByRecursion (AreRangesOf sides.now.parts.before) self.new.ranges.items) }
        ensures before { self.new.before ≡ self.old.before }
    {
        for place in 0..self.ranges.len() {
            if self.ranges[place].var == x {
                return Ok(place);
            }
        }
        let place = self.ranges.len();
        self.ranges.push(case_ranges(self.alloc, sides, x)?)?;
        Ok(place)
    }

    /// Makes the variable the last that was split. Whether it lacks a range in some case.
    fn choose(&mut self, sides: &Sides, x: ExprId) -> Result<bool, AllocError>
        requires few { case_count sides.now.parts.before ≤ 64 }
        requires kept { AllByRecursion (AreRangesOf sides.now.parts.before) self.old.ranges.items }
        ensures lacks { IfOk result (λ lacks. lacks
            ≡ list_any spec.is_none (spec.case_ranges sides.now.parts.before x)) }
        ensures cut { OnOk result ((splits_seen self.new).cut
            ≡ spec.case_ranges sides.now.parts.before x) }
        ensures kept { OnOk result
            (AllByRecursion (AreRangesOf sides.now.parts.before) self.new.ranges.items) }
        ensures before { self.new.before ≡ self.old.before }
    {
        let place = self.place_of(sides, x)?;
        self.cut = place;
        Ok(self.ranges[place].lacks)
    }

    /// Whether the token is a split variable that lacks a range in some case of the formula before
    /// it. Its ranges are kept for the points behind it. After an `Err` it is not to be used on.
    pub fn find<'a>(
        &mut self,
        formula: Option<&Formula<'a>>,
        role: Due,
        word: Word<'a>,
    ) -> Result<bool, AllocError>
        requires few { HasFewCases (said_if (option_copied formula)) }
        requires kept { AreKept (said_if (option_copied formula)) self.old.ranges.items }
        ensures lacks { IfOk result (λ lacks. lacks
            ≡ spec.is_lacking (said_if (option_copied formula.entry))
            (names.split_name role (word_of word.entry))) }
        ensures cut { OnOk result ((splits_seen self.new).cut
            ≡ spec.cut_after (said_if (option_copied formula.entry))
            (names.split_name role (word_of word.entry)) (splits_seen self.old).cut) }
        ensures kept { OnOk result
            (AreKept (said_if (option_copied formula.entry)) self.new.ranges.items) }
        ensures before { self.new.before ≡ self.old.before }
    {
        let Some(name) = split_name(role, word) else {
            return Ok(false);
        };
        let Some(formula) = formula else {
            return Ok(false);
        };
        match formula.nodes.number(name) {
            Some(x) => self.choose(&formula.sides, x),
            None => {
                self.cut = self.ranges.len();
                Ok(true)
            }
        }
    }

    /// The ranges of the last split variable.
    fn cut_ranges(&self) -> &[Option<SplitRange>]
        ensures { result.now ≡ (splits_seen self.now).cut }
    {
        match self.ranges.get(self.cut) {
            Some(ranges) => ranges.cases.as_slice(),
            None => &[],
        }
    }

    /// Whether the point of a list doesn't split.
    pub fn is_bad_point(&self, in_points: bool, number: Option<Written>) -> bool
        requires { IsWritten number }
        ensures { result ≡ spec.is_bad_point (splits_seen self.now) in_points
            (option_map written_value number) }
    {
        in_points && is_no_split(self.cut_ranges(), self.before, number)
    }

    /// Takes a token, with the number of the bound that begins there.
    pub fn take(&mut self, number: Option<Written>, role: Due)
        requires number { IsWritten number }
        ensures before { option_map grid_value self.new.before
            ≡ spec.before_after (option_map grid_value self.old.before)
            (option_map written_value number) role }
        ensures ranges { self.new.ranges ≡ self.old.ranges }
        ensures cut { self.new.cut ≡ self.old.cut }
    {
        self.before = before_after(self.before, number, role);
    }
}
