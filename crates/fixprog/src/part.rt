//! Where the reading of a statement stands.

ghost use Rattle.std.specs.Prelude.{◌≡◌, Option};
ghost use Rattle.std.specs.Option.{option_map, option_copied};
ghost use Rattle.std.specs.List.{list_all};
ghost use Rattle.std.specs.Char.{is_ascii_digit};
ghost use Rattle.script_judge.specs.Fault as fault;
ghost use Rattle.fixprog.specs.Standing as spec;
ghost use Rattle.fixprog.specs.Views.{word_of, operand_of, operation_of, part_of, statement_of};
ghost use Rattle.fixprog.specs.Views.{way_of, head_of, begun_of, digits_seen};
ghost use Rattle.fixprog.specs.Views as views;
ghost use Rattle.fixprog.specs.Grammar as grammar;

use crate::program::{
    Bound, Digits, Input, Joint, Mark, Operand, Operation, Shift, Statement, Step, Way,
};
use crate::word::Word;
use script_words::class::Symbol;

/// `name : format`
#[derive(Clone, Copy)]
pub struct Head<'a> {
    pub name: &'a [u8],
    pub format: &'a [u8],
}

/// `name : format direction`
#[derive(Clone, Copy)]
pub struct Begun<'a> {
    pub name: &'a [u8],
    pub format: &'a [u8],
    pub way: Way<'a>,
}

/// A statement that isn't ended, by what is due next.
#[derive(Clone, Copy)]
pub enum Part<'a> {
    /// A statement, or the end.
    Between,
    InputName,
    InputColon(&'a [u8]),
    InputFormat(&'a [u8]),
    InputOpen(Head<'a>),
    Lower(Head<'a>),
    LowerMarked(Head<'a>, Mark),
    Comma(Head<'a>, Bound<'a>),
    Upper(Head<'a>, Bound<'a>),
    UpperMarked(Head<'a>, Bound<'a>, Mark),
    InputClose(Input<'a>),
    InputEnd(Input<'a>),
    StepColon(&'a [u8]),
    StepFormat(&'a [u8]),
    StepWay(Head<'a>),
    StepEqual(Begun<'a>),
    StepOperand(Begun<'a>),
    StepNegated(Begun<'a>),
    StepOperator(Begun<'a>, Operand<'a>),
    StepSecond(Begun<'a>, Operand<'a>, Joint),
    StepPlaces(Begun<'a>, Operand<'a>, Shift),
    StepEnd(Step<'a>),
    OutputName,
    OutputEnd(&'a [u8]),
}

/// Which statements may begin beside an output.
#[derive(Clone, Copy)]
pub struct Opening {
    pub inputs: bool,
    pub steps: bool,
}

/// The text of a name; `None` for any other word, reserved words among them.
pub fn name_in<'a>(word: Word<'a>) -> Option<&'a [u8]>
    ensures { option_copied result ≡ spec.name_in (word_of word.entry) }
{
    match word {
        Word::Name(text) => Some(text),
        _ => None,
    }
}

/// The text of a literal; `None` for any other word.
pub fn literal_in<'a>(word: Word<'a>) -> Option<&'a [u8]>
    ensures { option_copied result ≡ spec.literal_in (word_of word.entry) }
{
    match word {
        Word::Literal(text) => Some(text),
        _ => None,
    }
}

/// The text of a format, be its numbers within their limits or not; `None` for any other word.
pub fn format_in<'a>(word: Word<'a>) -> Option<&'a [u8]>
    ensures { option_copied result ≡ spec.format_in (word_of word.entry) }
{
    match word {
        Word::Format(text) => Some(text),
        _ => None,
    }
}

/// The operand that a name or a literal is; `None` for any other word.
pub fn operand_in<'a>(word: Word<'a>) -> Option<Operand<'a>>
    ensures { option_map operand_of result ≡ spec.operand_in (word_of word.entry) }
{
    match word {
        Word::Name(text) => Some(Operand::Named(text)),
        Word::Literal(text) => Some(Operand::Given(text)),
        _ => None,
    }
}

fn mark_in(word: Word<'_>) -> Option<Mark>
    ensures { result ≡ spec.mark_in (word_of word.entry) }
{
    match word {
        Word::Sign(Symbol::Plus) => Some(Mark::Plus),
        Word::Sign(Symbol::Minus) => Some(Mark::Minus),
        _ => None,
    }
}

fn joint_in(word: Word<'_>) -> Option<Joint>
    ensures { result ≡ spec.joint_in (word_of word.entry) }
{
    match word {
        Word::Sign(Symbol::Plus) => Some(Joint::Plus),
        Word::Sign(Symbol::Minus) => Some(Joint::Minus),
        Word::Sign(Symbol::Star) => Some(Joint::Times),
        _ => None,
    }
}

fn shift_in(word: Word<'_>) -> Option<Shift>
    ensures { result ≡ spec.shift_in (word_of word.entry) }
{
    match word {
        Word::Right => Some(Shift::Right),
        Word::Left => Some(Shift::Left),
        _ => None,
    }
}

fn is_digits(text: &[u8]) -> bool
    ensures { result ≡ list_all is_ascii_digit text.now }
{
    text.iter().all(|b| b.is_ascii_digit())
}

/// Decimal digits alone.
pub fn digits_in<'a>(word: Word<'a>) -> Option<Digits<'a>>
    ensures { option_map digits_seen result ≡ spec.digits_in (word_of word.entry) }
{
    let Word::Literal(text) = word else {
        return None;
    };
    if is_digits(text) {
        Some(Digits { text })
    } else {
        None
    }
}

fn is_reserved(sign: Symbol) -> bool
    ensures { result ≡ fault.is_reserved sign }
{
    matches!(
        sign,
        Symbol::In
            | Symbol::Not
            | Symbol::Fixed
            | Symbol::Int
            | Symbol::Fma
            | Symbol::Float
            | Symbol::Sqrt
    )
}

/// Any name or reserved word.
pub fn way_in<'a>(word: Word<'a>) -> Option<Way<'a>>
    ensures { option_map way_of result ≡ spec.way_in (word_of word.entry) }
{
    match word {
        Word::Name(text) => Some(Way::Called(text)),
        Word::Sign(sign) if is_reserved(sign) => Some(Way::Reserved(sign)),
        Word::Out => Some(Way::Out),
        _ => None,
    }
}

fn is_in(word: Word<'_>) -> bool
    ensures { result ≡ spec.is_in (word_of word.entry) }
{
    matches!(word, Word::Sign(Symbol::In))
}

fn is_out(word: Word<'_>) -> bool
    ensures { result ≡ spec.is_out (word_of word.entry) }
{
    matches!(word, Word::Out)
}

fn is_colon(word: Word<'_>) -> bool
    ensures { result ≡ spec.is_colon (word_of word.entry) }
{
    matches!(word, Word::Colon)
}

fn is_open(word: Word<'_>) -> bool
    ensures { result ≡ spec.is_open (word_of word.entry) }
{
    matches!(word, Word::Sign(Symbol::OpenBracket))
}

fn is_comma(word: Word<'_>) -> bool
    ensures { result ≡ spec.is_comma (word_of word.entry) }
{
    matches!(word, Word::Sign(Symbol::Comma))
}

fn is_close(word: Word<'_>) -> bool
    ensures { result ≡ spec.is_close (word_of word.entry) }
{
    matches!(word, Word::Sign(Symbol::CloseBracket))
}

fn is_semicolon(word: Word<'_>) -> bool
    ensures { result ≡ spec.is_semicolon (word_of word.entry) }
{
    matches!(word, Word::Sign(Symbol::Semicolon))
}

fn is_equal(word: Word<'_>) -> bool
    ensures { result ≡ spec.is_equal (word_of word.entry) }
{
    matches!(word, Word::Sign(Symbol::Equal))
}

fn is_minus(word: Word<'_>) -> bool
    ensures { result ≡ spec.is_minus (word_of word.entry) }
{
    matches!(word, Word::Sign(Symbol::Minus))
}

fn some_if<'a>(test: bool, part: Part<'a>) -> Option<Part<'a>>
    ensures { option_map part_of result ≡ spec.some_if test (part_of part.entry) }
{
    if test { Some(part) } else { None }
}

fn headed<'a>(name: &'a [u8], format: &'a [u8]) -> Head<'a>
    ensures { head_of result ≡ spec.headed name.now format.now }
{
    Head { name, format }
}

fn stepped<'a>(begun: Begun<'a>, operation: Operation<'a>) -> Step<'a>
    ensures { views.step_of result ≡ spec.stepped (begun_of begun.entry)
        (operation_of operation.entry) }
{
    Step {
        name: begun.name,
        format: begun.format,
        way: begun.way,
        operation,
    }
}

fn joined<'a>(a: Operand<'a>, joint: Joint, b: Operand<'a>) -> Operation<'a>
    ensures { operation_of result ≡ spec.joined (operand_of a.entry) joint (operand_of b.entry) }
{
    match joint {
        Joint::Plus => Operation::Sum(a, b),
        Joint::Minus => Operation::Difference(a, b),
        Joint::Times => Operation::Product(a, b),
    }
}

fn shifted<'a>(a: Operand<'a>, shift: Shift, places: Digits<'a>) -> Operation<'a>
    ensures { operation_of result ≡ spec.shifted (operand_of a.entry) shift
        (digits_seen places.entry) }
{
    match shift {
        Shift::Right => Operation::Right(a, places),
        Shift::Left => Operation::Left(a, places),
    }
}

fn ranged<'a>(head: Head<'a>, lower: Bound<'a>, upper: Bound<'a>) -> Input<'a>
    ensures { views.input_of result ≡ spec.ranged (head_of head.entry) (views.bound_of lower.entry)
        (views.bound_of upper.entry) }
{
    Input {
        name: head.name,
        format: head.format,
        lower,
        upper,
    }
}

fn begin<'a>(opening: Opening, word: Word<'a>) -> Option<Part<'a>>
    ensures { option_map part_of result ≡ spec.begun (views.opening_of opening)
        (word_of word.entry) }
{
    if opening.inputs && is_in(word) {
        return Some(Part::InputName);
    }
    if is_out(word) {
        return Some(Part::OutputName);
    }
    if !opening.steps {
        return None;
    }
    match name_in(word) {
        Some(name) => Some(Part::StepColon(name)),
        None => None,
    }
}

fn input_colon<'a>(word: Word<'a>) -> Option<Part<'a>>
    ensures { option_map part_of result ≡ option_map spec.input_colon
        (spec.name_in (word_of word.entry)) }
{
    match name_in(word) {
        Some(name) => Some(Part::InputColon(name)),
        None => None,
    }
}

fn input_open<'a>(name: &'a [u8], word: Word<'a>) -> Option<Part<'a>>
    ensures { option_map part_of result ≡ option_map
        (λ f. spec.input_open (spec.headed name.now f)) (spec.format_in (word_of word.entry)) }
{
    match format_in(word) {
        Some(format) => Some(Part::InputOpen(headed(name, format))),
        None => None,
    }
}

fn comma<'a>(head: Head<'a>, mark: Mark, word: Word<'a>) -> Option<Part<'a>>
    ensures { option_map part_of result
        ≡ option_map (λ text. spec.comma (head_of head.entry) (spec.bound_of mark text))
        (spec.literal_in (word_of word.entry)) }
{
    match literal_in(word) {
        Some(text) => Some(Part::Comma(head, Bound { mark, text })),
        None => None,
    }
}

fn lower_next<'a>(head: Head<'a>, word: Word<'a>) -> Option<Part<'a>>
    ensures { option_map part_of result
        ≡ spec.lower_next (head_of head.entry) (spec.mark_in (word_of word.entry))
        (spec.literal_in (word_of word.entry)) }
{
    match mark_in(word) {
        Some(mark) => Some(Part::LowerMarked(head, mark)),
        None => comma(head, Mark::Unmarked, word),
    }
}

fn input_close<'a>(head: Head<'a>, lower: Bound<'a>, mark: Mark, word: Word<'a>) -> Option<Part<'a>>
    ensures { option_map part_of result
        ≡ option_map (λ text. spec.input_close
        (spec.ranged (head_of head.entry) (views.bound_of lower.entry)
        (spec.bound_of mark text)))
        (spec.literal_in (word_of word.entry)) }
{
    match literal_in(word) {
        Some(text) => Some(Part::InputClose(ranged(head, lower, Bound { mark, text }))),
        None => None,
    }
}

fn upper_next<'a>(head: Head<'a>, lower: Bound<'a>, word: Word<'a>) -> Option<Part<'a>>
    ensures { option_map part_of result
        ≡ spec.upper_next (head_of head.entry) (views.bound_of lower.entry)
        (spec.mark_in (word_of word.entry)) (spec.literal_in (word_of word.entry)) }
{
    match mark_in(word) {
        Some(mark) => Some(Part::UpperMarked(head, lower, mark)),
        None => input_close(head, lower, Mark::Unmarked, word),
    }
}

fn step_way<'a>(name: &'a [u8], word: Word<'a>) -> Option<Part<'a>>
    ensures { option_map part_of result ≡ option_map (λ f. spec.step_way (spec.headed name.now f))
        (spec.format_in (word_of word.entry)) }
{
    match format_in(word) {
        Some(format) => Some(Part::StepWay(headed(name, format))),
        None => None,
    }
}

fn step_equal<'a>(head: Head<'a>, word: Word<'a>) -> Option<Part<'a>>
    ensures { option_map part_of result
        ≡ option_map (λ v. spec.step_equal (spec.directed (head_of head.entry) v))
        (spec.way_in (word_of word.entry)) }
{
    match way_in(word) {
        Some(way) => Some(Part::StepEqual(Begun {
            name: head.name,
            format: head.format,
            way,
        })),
        None => None,
    }
}

fn operand_next<'a>(begun: Begun<'a>, word: Word<'a>) -> Option<Part<'a>>
    ensures { option_map part_of result
        ≡ spec.operand_next (begun_of begun.entry) (spec.is_minus (word_of word.entry))
        (spec.operand_in (word_of word.entry)) }
{
    if is_minus(word) {
        return Some(Part::StepNegated(begun));
    }
    match operand_in(word) {
        Some(a) => Some(Part::StepOperator(begun, a)),
        None => None,
    }
}

fn negated<'a>(begun: Begun<'a>, word: Word<'a>) -> Option<Part<'a>>
    ensures { option_map part_of result
        ≡ option_map (λ a. spec.step_end (spec.stepped (begun_of begun.entry)
        (grammar.negation a))) (spec.operand_in (word_of word.entry)) }
{
    match operand_in(word) {
        Some(a) => Some(Part::StepEnd(stepped(begun, Operation::Negation(a)))),
        None => None,
    }
}

fn operator_next<'a>(begun: Begun<'a>, a: Operand<'a>, word: Word<'a>) -> Option<Part<'a>>
    ensures { option_map part_of result
        ≡ spec.operator_next (begun_of begun.entry) (operand_of a.entry)
        (spec.joint_in (word_of word.entry)) (spec.shift_in (word_of word.entry)) }
{
    if let Some(joint) = joint_in(word) {
        return Some(Part::StepSecond(begun, a, joint));
    }
    match shift_in(word) {
        Some(shift) => Some(Part::StepPlaces(begun, a, shift)),
        None => None,
    }
}

fn second<'a>(begun: Begun<'a>, a: Operand<'a>, joint: Joint, word: Word<'a>) -> Option<Part<'a>>
    ensures { option_map part_of result
        ≡ option_map (λ b. spec.step_end (spec.stepped (begun_of begun.entry)
        (spec.joined (operand_of a.entry) joint b))) (spec.operand_in (word_of word.entry)) }
{
    match operand_in(word) {
        Some(b) => Some(Part::StepEnd(stepped(begun, joined(a, joint, b)))),
        None => None,
    }
}

fn places<'a>(begun: Begun<'a>, a: Operand<'a>, shift: Shift, word: Word<'a>) -> Option<Part<'a>>
    ensures { option_map part_of result
        ≡ option_map (λ k. spec.step_end (spec.stepped (begun_of begun.entry)
        (spec.shifted (operand_of a.entry) shift k))) (spec.digits_in (word_of word.entry)) }
{
    match digits_in(word) {
        Some(k) => Some(Part::StepEnd(stepped(begun, shifted(a, shift, k)))),
        None => None,
    }
}

fn output_end<'a>(word: Word<'a>) -> Option<Part<'a>>
    ensures { option_map part_of result ≡ option_map spec.output_end
        (spec.name_in (word_of word.entry)) }
{
    match name_in(word) {
        Some(name) => Some(Part::OutputEnd(name)),
        None => None,
    }
}

/// The part behind a word that has a place here and ends no statement.
pub fn next_part<'a>(opening: Opening, part: Part<'a>, word: Word<'a>) -> Option<Part<'a>>
    ensures { option_map part_of result ≡ spec.next_part (views.opening_of opening)
        (part_of part.entry) (word_of word.entry) }
{
    match part {
        Part::Between => begin(opening, word),
        Part::InputName => input_colon(word),
        Part::InputColon(name) => some_if(is_colon(word), Part::InputFormat(name)),
        Part::InputFormat(name) => input_open(name, word),
        Part::InputOpen(head) => some_if(is_open(word), Part::Lower(head)),
        Part::Lower(head) => lower_next(head, word),
        Part::LowerMarked(head, mark) => comma(head, mark, word),
        Part::Comma(head, lower) => some_if(is_comma(word), Part::Upper(head, lower)),
        Part::Upper(head, lower) => upper_next(head, lower, word),
        Part::UpperMarked(head, lower, mark) => input_close(head, lower, mark, word),
        Part::InputClose(input) => some_if(is_close(word), Part::InputEnd(input)),
        Part::InputEnd(_) => None,
        Part::StepColon(name) => some_if(is_colon(word), Part::StepFormat(name)),
        Part::StepFormat(name) => step_way(name, word),
        Part::StepWay(head) => step_equal(head, word),
        Part::StepEqual(begun) => some_if(is_equal(word), Part::StepOperand(begun)),
        Part::StepOperand(begun) => operand_next(begun, word),
        Part::StepNegated(begun) => negated(begun, word),
        Part::StepOperator(begun, a) => operator_next(begun, a, word),
        Part::StepSecond(begun, a, joint) => second(begun, a, joint, word),
        Part::StepPlaces(begun, a, shift) => places(begun, a, shift, word),
        Part::StepEnd(_) => None,
        Part::OutputName => output_end(word),
        Part::OutputEnd(_) => None,
    }
}

fn ending<'a>(part: Part<'a>) -> Option<Statement<'a>>
    ensures { option_map statement_of result ≡ spec.ending (part_of part.entry) }
{
    match part {
        Part::InputEnd(input) => Some(Statement::Input(input)),
        Part::StepOperator(begun, a) => Some(Statement::Step(stepped(begun, Operation::Copy(a)))),
        Part::StepEnd(step) => Some(Statement::Step(step)),
        Part::OutputEnd(name) => Some(Statement::Output(name)),
        _ => None,
    }
}

/// The statement that the word ends.
pub fn ended<'a>(part: Part<'a>, word: Word<'a>) -> Option<Statement<'a>>
    ensures { option_map statement_of result
        ≡ spec.ended (part_of part.entry) (word_of word.entry) }
{
    if is_semicolon(word) {
        ending(part)
    } else {
        None
    }
}
