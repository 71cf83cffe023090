//! What is counted token by token.

ghost use Rattle.std.specs.Prelude.{◌≡◌, ◌≤◌, ◌<◌, ◌*◌};
ghost use Rattle.script_words.specs.Named.{word_of};
ghost use Rattle.script_words.specs.Words as words;
ghost use Rattle.script_judge.specs.Counts as spec;
ghost use Rattle.script_judge.specs.Limits.{IsWithinLimits, HasCases};

use crate::sides::is_arrow;
use script_shape::due::Due;
use script_words::class::Symbol;
use script_words::words::Word;

/// The part of a script that a token stands in.
#[derive(Clone, Copy, Debug, PartialEq, Eq)]
pub enum ScriptPart {
    Definitions,
    /// The next token is the first of a proposition.
    PropositionNext,
    Formula,
    /// The next token is the first of a hint.
    HintNext,
    Hints,
}

/// What stood before a token.
#[derive(Clone, Copy, Debug, PartialEq, Eq)]
pub struct Counts {
    /// The part of the script.
    pub place: ScriptPart,
    /// Whether the definition rounds each of its operations.
    pub rounds: bool,
    /// Whether the hint halves variables for its goals.
    pub halves: bool,
    pub definitions: u32,
    pub propositions: u32,
    pub hints: u32,
    pub nodes: u32,
    /// Splits that stand alone.
    pub splits: u32,
    /// The pieces that a list of points makes so far, and 0 outside one.
    pub pieces: u32,
    /// The cases of the parts of the formula that have ended.
    pub cases: u32,
    /// The conjunctions that have begun in the part in hand.
    pub conjunctions: u32,
}

fn is_open_brace(word: Word<'_>) -> bool
    ensures { result ≡ words.is_open_brace (word_of word.entry) }
{
    matches!(word, Word::Sign(Symbol::OpenBrace))
}

/// The place behind the first token of a proposition or a hint.
fn within(place: ScriptPart) -> ScriptPart
    ensures { result ≡ spec.within place }
{
    match place {
        ScriptPart::PropositionNext => ScriptPart::Formula,
        ScriptPart::HintNext => ScriptPart::Hints,
        _ => place,
    }
}

/// The place behind a `}`.
fn place_closed(place: ScriptPart) -> ScriptPart
    ensures { result ≡ spec.place_closed place }
{
    match place {
        ScriptPart::Formula => ScriptPart::HintNext,
        _ => within(place),
    }
}

/// The place behind a `;`.
fn place_ended(place: ScriptPart) -> ScriptPart
    ensures { result ≡ spec.place_ended place }
{
    match place {
        ScriptPart::Hints => ScriptPart::HintNext,
        _ => within(place),
    }
}

fn place_opened(is_open_brace: bool, place: ScriptPart) -> ScriptPart
    ensures { result ≡ spec.place_opened is_open_brace place }
{
    if is_open_brace {
        ScriptPart::PropositionNext
    } else {
        place
    }
}

fn place_after(place: ScriptPart, role: Due, word: Word<'_>) -> ScriptPart
    ensures { result ≡ spec.place_after place role (word_of word.entry) }
{
    match role {
        Due::Script => place_opened(is_open_brace(word), place),
        Due::Claim => place,
        Due::Connective => ScriptPart::PropositionNext,
        Due::CloseBrace => place_closed(place),
        Due::Semicolon => place_ended(place),
        _ => within(place),
    }
}

fn begins_definition(role: Due, word: Word<'_>) -> bool
    ensures { result ≡ spec.begins_definition role (word_of word.entry) }
{
    match role {
        Due::Script => !is_open_brace(word),
        _ => false,
    }
}

fn is_first(role: Due) -> bool
    ensures { result ≡ spec.is_first role }
{
    !matches!(role, Due::Claim)
}

/// Whether it is the first token of a proposition.
fn begins_proposition(place: ScriptPart, role: Due) -> bool
    ensures { result ≡ spec.begins_proposition place role }
{
    match place {
        ScriptPart::PropositionNext => is_first(role),
        _ => false,
    }
}

fn begins_hint(place: ScriptPart) -> bool
    ensures { result ≡ spec.begins_hint place }
{
    matches!(place, ScriptPart::HintNext)
}

fn one_if(test: bool) -> u32
    ensures value { result ≡ spec.one_if test }
    ensures small { result ≤ 1 }
{
    if test { 1 } else { 0 }
}

/// The nodes of a sign that an operand begins with.
fn sign_nodes(rounds: bool, sign: Symbol) -> u32
    ensures value { result ≡ spec.sign_nodes rounds sign }
    ensures small { result ≤ 3 }
{
    match sign {
        Symbol::Minus | Symbol::Bar | Symbol::Fixed | Symbol::Int => 1,
        Symbol::Fma => 2 + one_if(rounds),
        _ => 0,
    }
}

fn operand_nodes(rounds: bool, is_new: bool, word: Word<'_>) -> u32
    ensures value { result ≡ spec.operand_nodes rounds is_new (word_of word.entry) }
    ensures small { result ≤ 3 }
{
    match word {
        Word::Literal(..) | Word::Rounding(..) => 1,
        Word::Name(..) => one_if(is_new),
        Word::Sign(sign) => sign_nodes(rounds, sign),
    }
}

/// The nodes that a token writes.
fn nodes_at(rounds: bool, is_new: bool, role: Due, word: Word<'_>) -> u32
    ensures value { result ≡ spec.nodes_at rounds is_new role (word_of word.entry) }
    ensures small { result ≤ 3 }
{
    match role {
        Due::Operand => operand_nodes(rounds, is_new, word),
        Due::Tail => 1 + one_if(rounds),
        _ => 0,
    }
}

fn splits_at(role: Due) -> u32
    ensures value { result ≡ spec.splits_at role }
    ensures small { result ≤ 1 }
{
    match role {
        Due::Hints => 1,
        _ => 0,
    }
}

fn pieces_begun(word: Word<'_>) -> u32
    ensures value { result ≡ spec.pieces_begun (word_of word.entry) }
    ensures small { result ≤ 1 }
{
    match word {
        Word::Sign(Symbol::OpenParen) => 1,
        _ => 0,
    }
}

fn pieces_after(pieces: u32, role: Due, word: Word<'_>) -> u32
    requires { pieces ≤ 64 }
    ensures value { result ≡ spec.pieces_after pieces role (word_of word.entry) }
    ensures small { result ≤ 65 }
{
    match role {
        Due::Cut => pieces_begun(word),
        Due::Bound => pieces + one_if(pieces > 0),
        Due::Semicolon => 0,
        _ => pieces,
    }
}

/// Whether it is a `\/` of the formula.
fn is_disjunction(role: Due, word: Word<'_>) -> bool
    ensures { result ≡ spec.is_disjunction role (word_of word.entry) }
{
    matches!((role, word), (Due::Connective, Word::Sign(Symbol::Or)))
}

fn cases_after(cases: u32, conjunctions: u32, role: Due, word: Word<'_>) -> u32
    requires { cases * conjunctions ≤ 64 }
    ensures { result ≡ spec.cases_after cases conjunctions role (word_of word.entry) }
{
    if is_arrow(role, word) {
        cases * conjunctions
    } else {
        cases
    }
}

fn conjunctions_after(conjunctions: u32, role: Due, word: Word<'_>) -> u32
    requires { conjunctions ≤ 64 }
    ensures { result ≡ spec.conjunctions_after conjunctions role (word_of word.entry) }
{
    if is_arrow(role, word) {
        1
    } else {
        conjunctions + one_if(is_disjunction(role, word))
    }
}

fn is_equal_sign(word: Word<'_>) -> bool
    ensures { result ≡ spec.is_equal_sign (word_of word.entry) }
{
    matches!(word, Word::Sign(Symbol::Equal))
}

fn rounds_after(rounds: bool, role: Due, word: Word<'_>) -> bool
    ensures { result ≡ spec.rounds_after rounds role (word_of word.entry) }
{
    match role {
        Due::DefinedBy => !is_equal_sign(word),
        Due::Semicolon => false,
        _ => rounds,
    }
}

fn halves_after(halves: bool, role: Due) -> bool
    ensures { result ≡ spec.halves_after halves role }
{
    match role {
        Due::Hints => false,
        Due::HintRest | Due::GoalSplit => true,
        _ => halves,
    }
}

/// The counts behind a token, which is the first operand of its name or isn't.
pub fn counts_after(counts: Counts, is_new: bool, role: Due, word: Word<'_>) -> Counts
    requires within { IsWithinLimits counts }
    requires cases { HasCases counts }
    ensures counts { result ≡ spec.counts_after counts is_new role (word_of word.entry) }
    ensures begun { result.cases * result.conjunctions ≤ 128 }
    ensures cases { HasCases result }
{
    Counts {
        place: place_after(counts.place, role, word),
        rounds: rounds_after(counts.rounds, role, word),
        halves: halves_after(counts.halves, role),
        definitions: counts.definitions + one_if(begins_definition(role, word)),
        propositions: counts.propositions + one_if(begins_proposition(counts.place, role)),
        hints: counts.hints + one_if(begins_hint(counts.place)),
        nodes: counts.nodes + nodes_at(counts.rounds, is_new, role, word),
        splits: counts.splits + splits_at(role),
        pieces: pieces_after(counts.pieces, role, word),
        cases: cases_after(counts.cases, counts.conjunctions, role, word),
        conjunctions: conjunctions_after(counts.conjunctions, role, word),
    }
}
