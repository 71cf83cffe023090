// What becomes of a text: its first refusal, or its words and what its formula says.
ghost use Rattle.std.specs.Prelude.{◌≡◌, ◌≤◌, length, take, drop, true, Option, None, IfOk, IfSome};
ghost use Rattle.std.specs.Option.{is_some, option_map};
ghost use Rattle.script_words.specs.Kept.{tokens_in, words_in};
ghost use Rattle.script_shape.specs.Roles.{leaves_of};
ghost use Rattle.script_cases.specs.Cases.{case_count};
ghost use Rattle.script_judge.specs.declared.fault.Fault.{Fault};
ghost use Rattle.script_judge.specs.Reading.{at_word as at_token};
ghost use Rattle.script_judge.specs.First.{IsFirstRefusal};
ghost use Rattle.script_judge.specs.Front.{closes_formula};
ghost use Rattle.script_judge.specs.Judging.{IsFirstFault};
ghost use Rattle.script_grammar.specs.Judgement as spec;
ghost use Rattle.script_grammar.specs.Judgement.{AreRead, IsJudgement, IsFormulaOf, IsPassedFront};

use crate::counts::{cases_are_counted, nodes_are_counted};
use expr_dag::DagFault;
use script_judge::reading::{at_word, fault, read_as_script, text_refusal};
use script_judge::{
    Formula, Front, Judging, ReadText, Refusal, first_of, fronts_are_read, read_front,
};
use script_shape::due::Due;
use script_shape::shape::leaves_are_of_trees;
use script_words::list::WordList;
use std::alloc::{AllocError, Global};

// Whether the word is the `}` of the formula.
fn closes_formula(role: Due) -> bool
    ensures { result ≡ closes_formula role }
{
    matches!(role, Due::CloseBrace)
}

// How many words there are up to the `}` of the formula, which is the first; all where there is
// none.
pub fn formula_end(roles: &[Due]) -> usize
    ensures end { result ≡ spec.formula_end roles.now }
    ensures within { result ≤ length roles.now }
{
    let mut end = 0;
    let mut roles = roles;
    while let [role, later_roles @ ..] = roles {
        end += 1;
        if closes_formula(*role) {
            return end;
        }
        roles = later_roles;
    }
    end
}

// So many roles from the front.
fn roles_before(roles: &[Due], count: usize) -> &[Due]
    requires { count ≤ length roles.now }
    ensures { result.now ≡ take count roles.now }
{
    &roles[..count]
}

/// The roles from this number on.
pub fn roles_from(roles: &[Due], number: usize) -> &[Due]
    requires { number ≤ length roles.now }
    ensures { result.now ≡ drop number roles.now }
{
    &roles[number..]
}

// Whether one of the words is a `}`.
fn has_formula(roles: &[Due]) -> bool
    ensures { result ≡ spec.has_formula roles.now }
{
    let mut roles = roles;
    while let [role, later_roles @ ..] = roles {
        if closes_formula(*role) {
            return true;
        }
        roles = later_roles;
    }
    false
}

// What the words before the reading ends are judged to be.
#[derive(Drop)]
struct JudgedText<'a> {
    // The first that is refused.
    refusal: Option<Refusal>,
    // What the formula says, where it has ended and no word is refused.
    formula: Option<Formula<'a>>,
}

// What words up to the end of a formula say, which the judge lets pass.
fn formula_of<'a>(
    alloc: Global,
    words: WordList<'_, 'a>,
    roles: &[Due],
) -> Result<Formula<'a>, AllocError>
    requires { IsPassedFront (leaves_of roles.now (words_in words)) }
    ensures says { IfOk result
        (IsFormulaOf (leaves_of roles.now (words_in words.entry)) (length roles.now)) }
    ensures few { IfOk result (λ f. case_count f.sides.parts.before ≤ 64) }
{
    nodes_are_counted();
    cases_are_counted();
    fronts_are_read();
    leaves_are_of_trees();
    match read_front(alloc, words, roles) {
        Ok(Front::Ended(formula)) => Ok(formula),
        Ok(Front::Definitions(_)) => unreachable!(),
        Ok(Front::Claims(_)) => unreachable!(),
        Err(DagFault::Full) => unreachable!(),
        Err(DagFault::OutOfMemory) => Err(AllocError),
    }
}

// Judges words with these roles, those of a text before its reading ends.
fn judged<'a>(
    alloc: Global,
    words: WordList<'_, 'a>,
    roles: &[Due],
) -> Result<JudgedText<'a>, AllocError>
    requires { AreRead (tokens_in words) (words_in words) roles.now }
    ensures refusal { IfOk result (λ j. (found : Option Fault)
        × IsFirstFault (leaves_of roles.now (words_in words.entry)) found
        × (j.refusal ≡ option_map (at_token (tokens_in words.entry)) found)) }
    ensures formula { IfOk result (λ j. IfSome j.formula (IsFormulaOf
        (leaves_of roles.now (words_in words.entry)) (spec.formula_end roles.now))) }
    ensures whole { IfOk result (λ j. j.refusal ≡ None
        → spec.has_formula roles.now ≡ true → is_some j.formula ≡ true) }
{
    let end = formula_end(roles);
    let mut judging = Judging::new(alloc, words, roles);
    let found = judging.judge(None, words, roles, end)?;
    if let Some(fault) = found {
        return Ok(JudgedText {
            refusal: Some(at_word(words, fault)),
            formula: None,
        });
    }
    if !has_formula(roles) {
        return Ok(JudgedText {
            refusal: None,
            formula: None,
        });
    }
    let formula = formula_of(alloc, words.front(end), roles_before(roles, end))?;
    let later = judging.judge(Some(&formula), words, roles, roles.len())?;
    match later {
        Some(fault) => Ok(JudgedText {
            refusal: Some(at_word(words, fault)),
            formula: None,
        }),
        None => Ok(JudgedText {
            refusal: None,
            formula: Some(formula),
        }),
    }
}

/// What becomes of a text.
#[derive(Drop)]
pub enum Judgement<'a> {
    /// It is no script: its first refusal.
    Refused(Refusal),
    /// Nothing of it is refused: its words with their roles, and what its formula says.
    Accepted(ReadText<'a>, Formula<'a>),
}

/// The first refusal of a text, or its words, which are read once, with what its formula says.
/// `Err` only where memory runs out.
pub fn judge_text<'a>(alloc: Global, text: &'a [u8]) -> Result<Judgement<'a>, AllocError>
    ensures { IfOk result (IsJudgement text.now) }
{
    leaves_are_of_trees();
    fronts_are_read();
    if let Some(refusal) = text_refusal(text) {
        return Ok(Judgement::Refused(refusal));
    }
    let read = read_as_script(alloc, text)?;
    let end = fault(alloc, text.len() as u32, &read)?;
    let found = judged(alloc, read.words.list(), read.shape.roles.as_slice())?;
    let JudgedText { refusal, formula } = found;
    if let Some(refusal) = first_of(end, refusal) {
        return Ok(Judgement::Refused(refusal));
    }
    let Some(formula) = formula else {
        unreachable!()
    };
    Ok(Judgement::Accepted(read, formula))
}

/// The first refusal of a text, or none. `Err` only where memory runs out.
pub fn first_refusal(alloc: Global, text: &[u8]) -> Result<Option<Refusal>, AllocError>
    ensures { IfOk result (IsFirstRefusal text.now) }
{
    match judge_text(alloc, text)? {
        Judgement::Refused(refusal) => Ok(Some(refusal)),
        Judgement::Accepted(_, _) => Ok(None),
    }
}
