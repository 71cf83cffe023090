//! The faults that a word tells.

ghost use Rattle.std.specs.Prelude.{◌≡◌, ◌<◌, ◌^◌, ◌+◌, ◌++◌, [], ◌∷◌, true, false, nat_lt, OnOk};
ghost use Rattle.std.specs.Prelude.{IfSome, MatchOption, if◌then◌else◌};
ghost use Rattle.std.specs.Option.{option_map, option_copied};
ghost use Rattle.std.specs.List.{list_any};
ghost use Rattle.std.specs.Str.{bytes_eq};
ghost use Rattle.literal.specs.Normal.{IsNormal};
ghost use Rattle.literal_order.specs.Values.{written_value, IsWritten};
ghost use Rattle.script_words.specs.Named.{is_direction as is_direction_word};
ghost use Rattle.script_nodes.specs.Literals as literals;
ghost use Rattle.fixprog.specs.Formats as formats;
ghost use Rattle.fixprog.specs.First as first_spec;
ghost use Rattle.fixprog.specs.Faults as faults;
ghost use Rattle.fixprog.specs.Standing as standing;
ghost use Rattle.fixprog.specs.Finding as spec;
ghost use Rattle.fixprog.specs.Finding.{first_from, at_byte};
ghost use Rattle.fixprog.specs.Views.{before_seen, bound_of, head_of, part_of, word_of, operand_of};
ghost use Rattle.fixprog.specs.Views.{way_of};

use crate::fault::{ProgFault, ProgKind};
use crate::format::format_of;
use crate::part::{Head, Part, digits_in, format_in, literal_in, name_in, operand_in, way_in};
use crate::program::{Bound, Mark, Operand, Way};
use crate::word::Word;
use fx_model::Literal;
use literal::read_bytes;
use literal_order::Written;
use script_nodes::laws::{literals_are_told, reads_literals};
use script_words::digits::number_below;
use std::alloc::{AllocError, Global};

// The number of a kind in the table of faults.
fn number(kind: ProgKind) -> u32
    ensures { result ≡ first_spec.number kind }
{
    match kind {
        ProgKind::NotText => 1,
        ProgKind::BadToken => 2,
        ProgKind::Unexpected => 3,
        ProgKind::BadFormat => 4,
        ProgKind::Undefined => 5,
        ProgKind::NameUsed => 6,
        ProgKind::BadRange => 7,
        ProgKind::LiteralLimit => 8,
        ProgKind::BadDirection => 9,
        ProgKind::Limit => 10,
    }
}

fn is_before(one: ProgFault, other: ProgFault) -> bool
    ensures { result ≡ first_spec.is_before one other }
{
    one.at < other.at || one.at == other.at && number(one.kind) < number(other.kind)
}

/// The earlier of the first fault so far and one more.
pub fn earlier(first: Option<ProgFault>, fault: ProgFault) -> Option<ProgFault>
    ensures { result ≡ spec.earlier first fault }
{
    match first {
        Some(found) if !is_before(fault, found) => Some(found),
        _ => Some(fault),
    }
}

// With a fault more where the test is true.
fn refused(first: Option<ProgFault>, test: bool, kind: ProgKind, at: u32) -> Option<ProgFault>
    ensures { result ≡ first_from first (if test then first_spec.fault kind at ∷ [] else []) }
{
    if test {
        earlier(first, ProgFault { kind, at })
    } else {
        first
    }
}

/// The names of the inputs and steps that have ended, and the weight of all statements that have.
#[derive(Drop)]
pub struct Names<'a> {
    names: Vec<&'a [u8]>,
    weight: u32,
}

fn has_name(names: &[&[u8]], name: &[u8]) -> bool
    ensures { result ≡ list_any (λ n. bytes_eq name.now n.now) names.now }
{
    names.iter().any(|n| name == *n)
}

impl<'a> Names<'a> {
    /// Before the first statement: no names, and a weight of 0.
    pub fn new(alloc: Global) -> Names<'a>
        ensures { before_seen result ≡ record { names = []; weight = 0 } }
    {
        Names {
            names: Vec::new(alloc),
            weight: 0,
        }
    }

    fn is_among(&self, name: &[u8]) -> bool
        ensures { result ≡ faults.is_among (before_seen self.now).names name.now }
    {
        has_name(self.names.as_slice(), name)
    }

    // A statement of this weight goes past the limit.
    fn is_full(&self, weight: u32) -> bool
        requires { self.now.weight + weight < 2 ^ 32 }
        ensures { result ≡ nat_lt 128 ((before_seen self.now).weight + weight) }
    {
        self.weight + weight > 128
    }

    /// Adds an input or a step.
    pub fn add(&mut self, name: &'a [u8], weight: u32) -> Result<(), AllocError>
        requires { self.old.weight + weight < 2 ^ 32 }
        ensures { OnOk result (before_seen self.new
            ≡ record {
              names = (before_seen self.old).names ++ (name.now ∷ []);
              weight =
                  (before_seen self.old).weight + weight;
            }) }
    {
        self.names.push(name)?;
        self.weight += weight;
        Ok(())
    }

    /// Adds an output.
    pub fn weigh(&mut self)
        requires { self.old.weight + 1 < 2 ^ 32 }
        ensures { before_seen self.new ≡ record {
          names = (before_seen self.old).names;
          weight =
              (before_seen self.old).weight + 1;
        } }
    {
        self.weight += 1;
    }
}

fn new_name(
    first: Option<ProgFault>,
    names: &Names<'_>,
    weight: u32,
    name: Option<&[u8]>,
    at: u32,
) -> Option<ProgFault>
    requires { names.now.weight + weight < 2 ^ 32 }
    ensures { result ≡ first_from first (spec.new_name_finds (at_byte at at)
        (before_seen names.now) weight (option_copied name.entry)) }
{
    let Some(name) = name else {
        return first;
    };
    let first = refused(first, names.is_among(name), ProgKind::NameUsed, at);
    let first = refused(first, name.len() > 32, ProgKind::Limit, at);
    refused(first, names.is_full(weight), ProgKind::Limit, at)
}

fn known_name(
    first: Option<ProgFault>,
    names: &Names<'_>,
    name: &[u8],
    at: u32,
) -> Option<ProgFault>
    ensures { result ≡ first_from first (spec.known_name_finds (at_byte at at)
        (before_seen names.now) name.now) }
{
    let first = refused(first, !names.is_among(name), ProgKind::Undefined, at);
    refused(first, name.len() > 32, ProgKind::Limit, at)
}

fn output_name(
    first: Option<ProgFault>,
    names: &Names<'_>,
    name: Option<&[u8]>,
    at: u32,
) -> Option<ProgFault>
    requires { names.now.weight + 1 < 2 ^ 32 }
    ensures { result ≡ first_from first (spec.output_finds (at_byte at at) (before_seen names.now)
        (option_copied name.entry)) }
{
    let Some(name) = name else {
        return first;
    };
    let first = known_name(first, names, name, at);
    refused(first, names.is_full(1), ProgKind::Limit, at)
}

// The normal form of a literal, where it is within its limits.
fn literal_of(text: &[u8]) -> Option<Literal>
    ensures literal { MatchOption result (faults.is_literal text.now ≡ false)
        (λ l. (faults.is_literal text.now ≡ true) × (l ≡ literals.literal_of text.now)) }
    ensures normal { IfSome result IsNormal }
{
    literals_are_told();
    reads_literals();
    match read_bytes(text) {
        Ok(literal) => Some(literal),
        Err(_) => None,
    }
}

fn is_literal(text: &[u8]) -> bool
    ensures { result ≡ faults.is_literal text.now }
{
    literal_of(text).is_some()
}

fn literal_text(first: Option<ProgFault>, text: &[u8], at: u32) -> Option<ProgFault>
    ensures { result ≡ first_from first (spec.literal_finds (at_byte at at) text.now) }
{
    refused(first, !is_literal(text), ProgKind::LiteralLimit, at)
}

fn format_text(first: Option<ProgFault>, text: Option<&[u8]>, at: u32) -> Option<ProgFault>
    ensures { result ≡ first_from first (spec.format_finds (at_byte at at)
        (option_copied text.entry)) }
{
    let Some(text) = text else {
        return first;
    };
    refused(first, format_of(text).is_none(), ProgKind::BadFormat, at)
}

fn is_negative(mark: Mark) -> bool
    ensures { result ≡ faults.is_negative mark }
{
    matches!(mark, Mark::Minus)
}

// The number that an end stands for, where it is within the limits.
fn number_of(bound: Bound<'_>) -> Option<Written>
    ensures number { MatchOption result (faults.is_literal bound.entry.text.now ≡ false)
        (λ w. (faults.is_literal bound.entry.text.now ≡ true)
        × (written_value w ≡ faults.bound_value (bound_of bound.entry))) }
    ensures written { IsWritten result }
{
    let literal = literal_of(bound.text)?;
    Some(Written {
        literal,
        negative: is_negative(bound.mark),
    })
}

fn is_outside(format: &[u8], bound: Bound<'_>) -> bool
    ensures { result ≡ faults.is_outside (formats.format_of format.now) (bound_of bound.entry) }
{
    let Some(format) = format_of(format) else {
        return false;
    };
    let Some(number) = number_of(bound) else {
        return false;
    };
    number.is_below(format.least_number()) || format.greatest_number().is_below(number)
}

fn is_crossed(lower: Bound<'_>, upper: Bound<'_>) -> bool
    ensures { result ≡ faults.is_crossed (bound_of lower.entry) (bound_of upper.entry) }
{
    let Some(low) = number_of(lower) else {
        return false;
    };
    let Some(high) = number_of(upper) else {
        return false;
    };
    high.is_below(low)
}

fn lower_end(
    first: Option<ProgFault>,
    head: Head<'_>,
    mark: Mark,
    text: Option<&[u8]>,
    begin: u32,
    at: u32,
) -> Option<ProgFault>
    ensures { result ≡ first_from first (spec.lower_finds (at_byte begin at) (head_of head.entry)
        mark (option_copied text.entry)) }
{
    let Some(text) = text else {
        return first;
    };
    let outside = is_outside(head.format, Bound { mark, text });
    let first = refused(first, outside, ProgKind::BadRange, begin);
    literal_text(first, text, at)
}

fn upper_end(
    first: Option<ProgFault>,
    head: Head<'_>,
    lower: Bound<'_>,
    upper: (Mark, Option<&[u8]>),
    begin: u32,
    at: u32,
) -> Option<ProgFault>
    ensures { result ≡ first_from first (spec.upper_finds (at_byte begin at) (head_of head.entry)
        (bound_of lower.entry) upper.entry.0 (option_copied upper.entry.1)) }
{
    let (mark, text) = upper;
    let Some(text) = text else {
        return first;
    };
    let bound = Bound { mark, text };
    let bad = is_outside(head.format, bound) || is_crossed(lower, bound);
    let first = refused(first, bad, ProgKind::BadRange, begin);
    literal_text(first, text, at)
}

fn is_direction(text: &[u8]) -> bool
    ensures { result ≡ is_direction_word text.now }
{
    text == b"zr".as_slice()
        || text == b"aw".as_slice()
        || text == b"dn".as_slice()
        || text == b"up".as_slice()
        || text == b"od".as_slice()
        || text == b"ne".as_slice()
        || text == b"no".as_slice()
        || text == b"nz".as_slice()
        || text == b"na".as_slice()
        || text == b"nd".as_slice()
        || text == b"nu".as_slice()
}

fn is_way(way: Way<'_>) -> bool
    ensures { result ≡ faults.is_way (way_of way.entry) }
{
    match way {
        Way::Called(text) => is_direction(text),
        _ => false,
    }
}

fn direction(first: Option<ProgFault>, way: Option<Way<'_>>, at: u32) -> Option<ProgFault>
    ensures { result ≡ first_from first (spec.way_finds (at_byte at at)
        (option_map way_of way.entry)) }
{
    let Some(way) = way else {
        return first;
    };
    refused(first, !is_way(way), ProgKind::BadDirection, at)
}

fn operand(
    first: Option<ProgFault>,
    names: &Names<'_>,
    operand: Option<Operand<'_>>,
    at: u32,
) -> Option<ProgFault>
    ensures { result ≡ first_from first (spec.operand_finds (at_byte at at) (before_seen names.now)
        (option_map operand_of operand.entry)) }
{
    match operand {
        Some(Operand::Named(text)) => known_name(first, names, text, at),
        Some(Operand::Given(text)) => literal_text(first, text, at),
        None => first,
    }
}

fn places(first: Option<ProgFault>, word: Word<'_>, at: u32) -> Option<ProgFault>
    ensures { result ≡ first_from first (spec.places_finds (at_byte at at)
        (standing.digits_in (word_of word.entry))) }
{
    let Some(digits) = digits_in(word) else {
        return first;
    };
    let places = number_below(64, digits.text);
    refused(first, places.is_none(), ProgKind::Limit, at)
}

/// The first fault, with those that a word at this byte tells; the one before began at `last`.
pub fn judged(
    first: Option<ProgFault>,
    names: &Names<'_>,
    part: Part<'_>,
    word: Word<'_>,
    last: u32,
    at: u32,
) -> Option<ProgFault>
    requires { names.now.weight + 2 < 2 ^ 32 }
    ensures { result ≡ first_from first (spec.found (before_seen names.now) (part_of part.entry)
        (word_of word.entry) last at) }
{
    match part {
        Part::Between => new_name(first, names, 1, name_in(word), at),
        Part::InputName => new_name(first, names, 2, name_in(word), at),
        Part::InputFormat(_) | Part::StepFormat(_) => format_text(first, format_in(word), at),
        Part::Lower(head) => lower_end(first, head, Mark::Unmarked, literal_in(word), at, at),
        Part::LowerMarked(head, mark) => {
            lower_end(first, head, mark, literal_in(word), last, at)
        }
        Part::Upper(head, lower) => {
            upper_end(
                first,
                head,
                lower,
                (Mark::Unmarked, literal_in(word)),
                at,
                at,
            )
        }
        Part::UpperMarked(head, lower, mark) => {
            upper_end(first, head, lower, (mark, literal_in(word)), last, at)
        }
        Part::StepWay(_) => direction(first, way_in(word), at),
        Part::StepOperand(_) | Part::StepNegated(_) | Part::StepSecond(_, _, _) => {
            operand(first, names, operand_in(word), at)
        }
        Part::StepPlaces(_, _, _) => places(first, word, at),
        Part::OutputName => output_name(first, names, name_in(word), at),
        _ => first,
    }
}
