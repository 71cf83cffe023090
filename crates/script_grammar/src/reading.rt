// From a text to its script, or to its refusal.
ghost use Rattle.std.specs.Prelude.{◌≡◌, None, Err, IfOk, IfErr};
ghost use Rattle.script_judge.specs.First.{IsFirstRefusal};
ghost use Rattle.script_judge.specs.Reading.{IsReadingOf};
ghost use Rattle.script_judge.specs.Views.{reading_of};
ghost use Rattle.script_grammar.specs.Judgement.{IsFormulaOf, formula_end as spec_end};
ghost use Rattle.script_grammar.specs.Spells.{View, Spells, IsRefused};

use crate::hints::read_hints;
use crate::judgement::{Judgement, formula_end, judge_text, roles_from};
use crate::laws::{script_or_refusal, scripts_are_read, spelled_are_short};
use crate::script::Script;
use expr_dag::DagFault;
use goal_spans::{goal_spans, spans_are_read};
use script_judge::{Formula, ReadText, Refusal};
use script_shape::shape::leaves_are_of_trees;
use script_words::lex::lexed_once;
use std::alloc::Global;

/// Why a text gives no script.
#[derive(Clone, Copy, PartialEq, Eq, Debug)]
pub enum ParseStop {
    /// It spells none: its first refusal.
    Refused(Refusal),
    /// There is no memory for it.
    OutOfMemory,
}

/// The script that a text spells, or its first refusal.
pub fn parse<'a>(alloc: Global, text: &'a [u8]) -> Result<Script<'a>, ParseStop>
    // What is answered is spelled, and what is refused has this refusal.
    ensures spelled { IfOk result (Spells text.now) }
    ensures refused { (r : Refusal) → result ≡ Err (ParseStop.Refused r) → IsRefused text.now r }
    // What is spelled is answered, lack of memory aside.
    ensures answered { (s : View) → Spells text.now s
        → IfOk result (λ t. t ≡ s) × ((r : Refusal) → ¬ (result ≡ Err (ParseStop.Refused r))) }
{
    script_or_refusal();
    match judge_text(alloc, text) {
        Ok(Judgement::Refused(refusal)) => Err(ParseStop::Refused(refusal)),
        Ok(Judgement::Accepted(read, formula)) => accepted(alloc, text, read, formula),
        Err(_) => Err(ParseStop::OutOfMemory),
    }
}

// The script of a text that isn't refused, and is read so.
fn accepted<'a>(
    alloc: Global,
    text: &'a [u8],
    read: ReadText<'a>,
    formula: Formula<'a>,
) -> Result<Script<'a>, ParseStop>
    requires accepted { IsFirstRefusal text.now None }
    requires reading { IsReadingOf text.now (reading_of read) }
    requires formula { IsFormulaOf (reading_of read).leaves
        (spec_end read.shape.roles.items) formula }
    ensures spelled { IfOk result (Spells text.now) }
    ensures memory { IfErr result (λ stop. stop ≡ ParseStop.OutOfMemory) }
{
    scripts_are_read();
    spans_are_read();
    script_or_refusal();
    spelled_are_short();
    lexed_once();
    leaves_are_of_trees();
    let ReadText { words, shape } = read;
    let words = words.list();
    let roles = shape.roles.as_slice();
    let Ok(tokens) = words.tokens(alloc) else {
        return Err(ParseStop::OutOfMemory);
    };
    let Ok(spans) = goal_spans(alloc, words, roles) else {
        return Err(ParseStop::OutOfMemory);
    };
    let end = formula_end(roles);
    let Formula { nodes, sides } = formula;
    match read_hints(alloc, nodes, words.from(end), roles_from(roles, end)) {
        Ok(read) => {
            let (nodes, hints) = read;
            Ok(Script::new(text, tokens, nodes, sides, spans, hints))
        }
        Err(DagFault::Full) => unreachable!(),
        Err(DagFault::OutOfMemory) => Err(ParseStop::OutOfMemory),
    }
}
