//! Where a list of words leaves the grammar of scripts.

ghost use Rattle.std.specs.Prelude.{◌≡◌, length, reverse, IfOk};
ghost use Rattle.script_words.specs.Kept.{words_in};
ghost use Rattle.script_shape.specs.Shape as spec;
ghost use Rattle.script_shape.specs.ShapeLaw.{ShapeIsExact, ShapeIsUnique, ShapesExist};
ghost use Rattle.script_shape.specs.ShapeLaw.{RolesAreUnique, Steps, IsShapeOf, AreRolesOf};
ghost use Rattle.script_shape.specs.Roles.{LeavesSpell, LeavesAreOfTrees};
ghost use Rattle.script_shape.specs.Next as spec_next;
ghost use Rattle.script_shape.specs.Next.{NextIsExact};

use crate::due::Due;
use crate::table::{may_skip, role_of, takes};
use script_words::class::Class;
use script_words::list::WordList;
use std::alloc::{AllocError, Global};

/// Takes one more token, where it has a place, and answers its role. The last thing on the stack is
/// due first.
fn step(stack: &mut Vec<Due>, class: Class) -> Result<Option<Due>, AllocError>
    ensures { IfOk result (λ found.
        Steps class (reverse stack.old.items) found (reverse stack.new.items)) }
{
    while let Some(top) = stack.pop() {
        if let Some(new) = takes(top, class) {
            stack.extend_from_slice(new)?;
            return Ok(Some(role_of(top, class)));
        }
        if !may_skip(top) {
            return Ok(None);
        }
    }
    Ok(None)
}

/// Whether nothing more has to come. It uses the stack up.
#[tactic(auto, unfolding(crate::specs::Shape::may_end))]
fn may_end(stack: &mut Vec<Due>) -> bool
    ensures { result ≡ spec.may_end (reverse stack.old.items) }
{
    while let Some(top) = stack.pop() {
        if !may_skip(top) {
            return false;
        }
    }
    true
}

/// How far a list of words goes with the grammar.
#[derive(Drop)]
pub struct Shape {
    /// The role of each word that was taken: so many words begin a script.
    pub roles: Vec<Due>,
    /// Whether all words are a script.
    pub whole: bool,
}

/// A stack on which a script is due, with room for what so many words leave due: `fma` and its `(`
/// leave six things more than they take, which is three a word, and no words leave more, a few
/// aside.
fn script_due(alloc: Global, words: usize) -> Result<Vec<Due>, AllocError>
    ensures { IfOk result (λ stack. reverse stack.items ≡ spec.start) }
{
    let room = words.saturating_mul(3).saturating_add(16);
    let mut stack = Vec::with_capacity(alloc, room)?;
    stack.push(Due::Script)?;
    Ok(stack)
}

/// How far words go with the grammar. `Err` only where memory runs out.
pub fn shape_of(alloc: Global, words: WordList<'_, '_>) -> Result<Shape, AllocError>
    ensures shape { IfOk result
        (λ shape. IsShapeOf (words_in words.entry) (length shape.roles.items) shape.whole) }
    ensures roles { IfOk result
        (λ shape. AreRolesOf (words_in words.entry) (length shape.roles.items) shape.roles.items) }
{
    let mut stack = script_due(alloc, words.len())?;
    let mut roles = Vec::with_capacity(alloc, words.len())?;
    for number in 0..words.len() {
        let Some(role) = step(&mut stack, words.class_at(number))? else {
            return Ok(Shape {
                roles,
                whole: false,
            });
        };
        roles.push(role)?;
    }
    Ok(Shape {
        roles,
        whole: may_end(&mut stack),
    })
}

/// Whether a word of this class may come next. `Err` only where memory runs out.
pub fn may_follow(alloc: Global, words: WordList<'_, '_>, next: Class) -> Result<bool, AllocError>
    ensures { IfOk result (λ may. may ≡ spec_next.may_follow (words_in words.entry) next) }
{
    let mut stack = script_due(alloc, words.len())?;
    for number in 0..words.len() {
        let Some(_) = step(&mut stack, words.class_at(number))? else {
            return Ok(false);
        };
    }
    Ok(step(&mut stack, next)?.is_some())
}

/// For readers alone, the law of the words that may come next.
pub fn next_is_exact()
    ensures { NextIsExact }
{}

/// For readers alone, the law of the stack.
pub fn stack_is_exact()
    ensures { ShapeIsExact }
{}

/// Words have one shape.
pub fn shape_is_unique()
    ensures { ShapeIsUnique }
{}

/// Nothing is done. The clause tells a caller that all words have a shape.
pub fn shapes_exist()
    ensures { ShapesExist }
{}

/// Words have one list of roles.
pub fn roles_are_unique()
    ensures { RolesAreUnique }
{}

/// The leaves of a script's tree have its words, and words that are all of a script have the leaves
/// of its tree.
pub fn leaves_are_of_trees()
    ensures spell { LeavesSpell }
    ensures are { LeavesAreOfTrees }
{}
