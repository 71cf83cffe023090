//! The table of the grammar: what each thing that is due takes.

ghost use Rattle.std.specs.Prelude.{[], ◌∷◌, ◌≡◌, MatchOption};
ghost use Rattle.script_words.specs.declared.class.Class.TheVariants as class_of;
ghost use Rattle.script_shape.specs.Table as spec;
ghost use Rattle.script_shape.specs.Table.{Answers};

use crate::due::Due;
use script_words::class::{Class, Number, Spelled, Symbol};

// A sign alone, and what is due after it.
fn after_sign(class: Class, sign: Symbol, new: &'static [Due]) -> Option<&'static [Due]>
    ensures { MatchOption result (¬ (class ≡ class_of.Sign sign))
        (λ got. (class ≡ class_of.Sign sign) × (got.now ≡ new.now)) }
{
    if class == Class::Sign(sign) {
        Some(new)
    } else {
        None
    }
}

// A name, also one of a rounding operator.
fn name(class: Class) -> Option<&'static [Due]>
    ensures new { Answers (spec.takes Due.NewName class) result }
    ensures split { Answers (spec.takes Due.SplitName class) result }
{
    match class {
        Class::Name(_) | Class::Rounding(_) => Some(&[]),
        _ => None,
    }
}

fn direction(class: Class) -> Option<&'static [Due]>
    ensures { Answers (spec.takes Due.Direction class) result }
{
    match class {
        Class::Name(Spelled::Direction) | Class::Rounding(Spelled::Direction) => Some(&[]),
        _ => None,
    }
}

fn fix(class: Class) -> Option<&'static [Due]>
    ensures { Answers (spec.takes Due.Fix class) result }
{
    match class {
        Class::Name(Spelled::Fix) | Class::Rounding(Spelled::Fix) => Some(&[]),
        _ => None,
    }
}

fn magnitude(class: Class) -> Option<&'static [Due]>
    ensures { Answers (spec.takes Due.Magnitude class) result }
{
    match class {
        Class::Literal(_) => Some(&[]),
        _ => None,
    }
}

fn zero(class: Class) -> Option<&'static [Due]>
    ensures { Answers (spec.takes Due.Zero class) result }
{
    match class {
        Class::Literal(Number::Zero) => Some(&[]),
        _ => None,
    }
}

fn script(class: Class) -> Option<&'static [Due]>
    ensures { Answers (spec.takes Due.Script class) result }
{
    match class {
        Class::Sign(Symbol::At) => Some(&[
            Due::Script,
            Due::Semicolon,
            Due::Greater,
            Due::Operator,
            Due::Equal,
            Due::NewName,
        ]),
        Class::Name(_) | Class::Rounding(_) => {
            Some(&[Due::Script, Due::Semicolon, Due::Operand, Due::DefinedBy])
        }
        Class::Sign(Symbol::OpenBrace) => {
            Some(&[Due::Hints, Due::CloseBrace, Due::Connective, Due::Claim])
        }
        _ => None,
    }
}

fn defined_by(class: Class) -> Option<&'static [Due]>
    ensures { Answers (spec.takes Due.DefinedBy class) result }
{
    match class {
        Class::Sign(Symbol::Equal) => Some(&[]),
        Class::Rounding(_) => Some(&[Due::Equal]),
        Class::Sign(Symbol::Fixed) => Some(&[
            Due::CloseOperator,
            Due::Direction,
            Due::Comma,
            Due::Whole,
            Due::Less,
        ]),
        Class::Sign(Symbol::Int) => Some(&[Due::CloseOperator, Due::Direction, Due::Less]),
        _ => None,
    }
}

fn operator(class: Class) -> Option<&'static [Due]>
    ensures { Answers (spec.takes Due.Operator class) result }
{
    match class {
        Class::Sign(Symbol::Fixed) => Some(&[Due::Direction, Due::Comma, Due::Whole, Due::Less]),
        Class::Sign(Symbol::Int) => Some(&[Due::Direction, Due::Less]),
        _ => None,
    }
}

fn prop(class: Class) -> Option<&'static [Due]>
    ensures { Answers (spec.takes Due.Prop class) result }
{
    match class {
        Class::Sign(Symbol::At) => Some(&[
            Due::CloseParen,
            Due::Whole,
            Due::Comma,
            Due::Operand,
            Due::OpenParen,
            Due::Fix,
        ]),
        Class::Sign(Symbol::Minus) => Some(&[Due::Relation, Due::Operand]),
        Class::Literal(_) | Class::Name(_) => Some(&[Due::Relation, Due::Tail]),
        Class::Sign(Symbol::OpenParen) => Some(&[
            Due::Relation,
            Due::Tail,
            Due::CloseParen,
            Due::Operand,
        ]),
        Class::Sign(Symbol::Bar) => Some(&[Due::Relation, Due::Tail, Due::CloseBar, Due::Operand]),
        Class::Rounding(_) => Some(&[
            Due::Relation,
            Due::Tail,
            Due::CloseParen,
            Due::Operand,
            Due::OpenParen,
        ]),
        Class::Sign(Symbol::Fixed) => Some(&[
            Due::Relation,
            Due::Tail,
            Due::CloseParen,
            Due::Operand,
            Due::OpenParen,
            Due::Greater,
            Due::Direction,
            Due::Comma,
            Due::Whole,
            Due::Less,
        ]),
        Class::Sign(Symbol::Int) => Some(&[
            Due::Relation,
            Due::Tail,
            Due::CloseParen,
            Due::Operand,
            Due::OpenParen,
            Due::Greater,
            Due::Direction,
            Due::Less,
        ]),
        Class::Sign(Symbol::Fma) => Some(&[
            Due::Relation,
            Due::Tail,
            Due::CloseParen,
            Due::Operand,
            Due::Comma,
            Due::Operand,
            Due::Comma,
            Due::Operand,
            Due::OpenParen,
        ]),
        _ => None,
    }
}

fn claim(class: Class) -> Option<&'static [Due]>
    ensures { Answers (spec.takes Due.Claim class) result }
{
    match class {
        Class::Sign(Symbol::Not) => Some(&[Due::Prop]),
        _ => prop(class),
    }
}

// A hint that begins with an operand.
fn operand_hint(class: Class) -> Option<&'static [Due]>
    ensures { Answers
        (spec.then_due (spec.operand class) (Due.HintRest ∷ Due.Semicolon ∷ Due.Hints ∷ []))
        result }
{
    match class {
        Class::Sign(Symbol::Minus) => {
            Some(&[Due::Hints, Due::Semicolon, Due::HintRest, Due::Operand])
        }
        Class::Literal(_) | Class::Name(_) => {
            Some(&[Due::Hints, Due::Semicolon, Due::HintRest, Due::Tail])
        }
        Class::Sign(Symbol::OpenParen) => Some(&[
            Due::Hints,
            Due::Semicolon,
            Due::HintRest,
            Due::Tail,
            Due::CloseParen,
            Due::Operand,
        ]),
        Class::Sign(Symbol::Bar) => Some(&[
            Due::Hints,
            Due::Semicolon,
            Due::HintRest,
            Due::Tail,
            Due::CloseBar,
            Due::Operand,
        ]),
        Class::Rounding(_) => Some(&[
            Due::Hints,
            Due::Semicolon,
            Due::HintRest,
            Due::Tail,
            Due::CloseParen,
            Due::Operand,
            Due::OpenParen,
        ]),
        Class::Sign(Symbol::Fixed) => Some(&[
            Due::Hints,
            Due::Semicolon,
            Due::HintRest,
            Due::Tail,
            Due::CloseParen,
            Due::Operand,
            Due::OpenParen,
            Due::Greater,
            Due::Direction,
            Due::Comma,
            Due::Whole,
            Due::Less,
        ]),
        Class::Sign(Symbol::Int) => Some(&[
            Due::Hints,
            Due::Semicolon,
            Due::HintRest,
            Due::Tail,
            Due::CloseParen,
            Due::Operand,
            Due::OpenParen,
            Due::Greater,
            Due::Direction,
            Due::Less,
        ]),
        Class::Sign(Symbol::Fma) => Some(&[
            Due::Hints,
            Due::Semicolon,
            Due::HintRest,
            Due::Tail,
            Due::CloseParen,
            Due::Operand,
            Due::Comma,
            Due::Operand,
            Due::Comma,
            Due::Operand,
            Due::OpenParen,
        ]),
        _ => None,
    }
}

fn hints(class: Class) -> Option<&'static [Due]>
    ensures { Answers (spec.takes Due.Hints class) result }
{
    match class {
        Class::Sign(Symbol::Dollar) => {
            Some(&[Due::Hints, Due::Semicolon, Due::SplitCut, Due::SplitName])
        }
        _ => operand_hint(class),
    }
}

fn operand(class: Class) -> Option<&'static [Due]>
    ensures { Answers (spec.takes Due.Operand class) result }
{
    match class {
        Class::Sign(Symbol::Minus) => Some(&[Due::Operand]),
        Class::Literal(_) | Class::Name(_) => Some(&[Due::Tail]),
        Class::Sign(Symbol::OpenParen) => Some(&[Due::Tail, Due::CloseParen, Due::Operand]),
        Class::Sign(Symbol::Bar) => Some(&[Due::Tail, Due::CloseBar, Due::Operand]),
        Class::Rounding(_) => Some(&[Due::Tail, Due::CloseParen, Due::Operand, Due::OpenParen]),
        Class::Sign(Symbol::Fixed) => Some(&[
            Due::Tail,
            Due::CloseParen,
            Due::Operand,
            Due::OpenParen,
            Due::Greater,
            Due::Direction,
            Due::Comma,
            Due::Whole,
            Due::Less,
        ]),
        Class::Sign(Symbol::Int) => Some(&[
            Due::Tail,
            Due::CloseParen,
            Due::Operand,
            Due::OpenParen,
            Due::Greater,
            Due::Direction,
            Due::Less,
        ]),
        Class::Sign(Symbol::Fma) => Some(&[
            Due::Tail,
            Due::CloseParen,
            Due::Operand,
            Due::Comma,
            Due::Operand,
            Due::Comma,
            Due::Operand,
            Due::OpenParen,
        ]),
        _ => None,
    }
}

fn relation(class: Class) -> Option<&'static [Due]>
    ensures { Answers (spec.takes Due.Relation class) result }
{
    match class {
        Class::Sign(Symbol::In) => Some(&[Due::Range]),
        Class::Sign(Symbol::Against) => Some(&[Due::Range, Due::In, Due::Operand]),
        Class::Sign(Symbol::LessEqual) | Class::Sign(Symbol::GreaterEqual) => Some(&[Due::Bound]),
        _ => None,
    }
}

fn range(class: Class) -> Option<&'static [Due]>
    ensures { Answers (spec.takes Due.Range class) result }
{
    match class {
        Class::Sign(Symbol::Ask) => Some(&[]),
        Class::Sign(Symbol::OpenBracket) => {
            Some(&[Due::CloseBracket, Due::Bound, Due::Comma, Due::Bound])
        }
        _ => None,
    }
}

fn hint_rest(class: Class) -> Option<&'static [Due]>
    ensures { Answers (spec.takes Due.HintRest class) result }
{
    match class {
        Class::Sign(Symbol::Arrow) => Some(&[Due::Needs, Due::Operand]),
        Class::Sign(Symbol::Tilde) => Some(&[Due::Operand]),
        Class::Sign(Symbol::Comma) => Some(&[Due::GoalSplit, Due::Operand]),
        Class::Sign(Symbol::Dollar) => Some(&[Due::SplitNames, Due::SplitName]),
        _ => None,
    }
}

fn goal_split(class: Class) -> Option<&'static [Due]>
    ensures { Answers (spec.takes Due.GoalSplit class) result }
{
    match class {
        Class::Sign(Symbol::Comma) => Some(&[Due::GoalSplit, Due::Operand]),
        Class::Sign(Symbol::Dollar) => Some(&[Due::SplitNames, Due::SplitName]),
        _ => None,
    }
}

fn cut(class: Class) -> Option<&'static [Due]>
    ensures { Answers (spec.takes Due.Cut class) result }
{
    match class {
        Class::Literal(Number::Zero | Number::Digits) => Some(&[]),
        Class::Sign(Symbol::OpenParen) => Some(&[Due::CloseParen, Due::Points, Due::Bound]),
        _ => None,
    }
}

fn need_relation(class: Class) -> Option<&'static [Due]>
    ensures { Answers (spec.takes Due.NeedRelation class) result }
{
    match class {
        Class::Sign(Symbol::Unequal) => Some(&[Due::Zero]),
        Class::Sign(Symbol::Less | Symbol::LessEqual | Symbol::Greater | Symbol::GreaterEqual) => {
            Some(&[Due::Bound])
        }
        _ => None,
    }
}

fn whole(class: Class) -> Option<&'static [Due]>
    ensures { Answers (spec.takes Due.Whole class) result }
{
    match class {
        Class::Sign(Symbol::Minus) => Some(&[Due::WholeDigits]),
        Class::Literal(Number::Zero | Number::Digits) => Some(&[]),
        _ => None,
    }
}

fn whole_digits(class: Class) -> Option<&'static [Due]>
    ensures { Answers (spec.takes Due.WholeDigits class) result }
{
    match class {
        Class::Literal(Number::Zero | Number::Digits) => Some(&[]),
        _ => None,
    }
}

fn close_operator(class: Class) -> Option<&'static [Due]>
    ensures { Answers (spec.takes Due.CloseOperator class) result }
{
    match class {
        Class::Sign(Symbol::Greater) => Some(&[Due::Equal]),
        Class::Sign(Symbol::GreaterEqual) => Some(&[]),
        _ => None,
    }
}

fn tail(class: Class) -> Option<&'static [Due]>
    ensures { Answers (spec.takes Due.Tail class) result }
{
    match class {
        Class::Sign(Symbol::Plus | Symbol::Minus | Symbol::Star | Symbol::Slash) => {
            Some(&[Due::Operand])
        }
        _ => None,
    }
}

fn bound(class: Class) -> Option<&'static [Due]>
    ensures { Answers (spec.takes Due.Bound class) result }
{
    match class {
        Class::Literal(_) => Some(&[]),
        Class::Sign(Symbol::Plus | Symbol::Minus) => Some(&[Due::Magnitude]),
        _ => None,
    }
}

fn connective(class: Class) -> Option<&'static [Due]>
    ensures { Answers (spec.takes Due.Connective class) result }
{
    match class {
        Class::Sign(Symbol::And | Symbol::Or | Symbol::Arrow) => {
            Some(&[Due::Connective, Due::Claim])
        }
        _ => None,
    }
}

/// What is due after a token of this class, in place of what was due, the last first.
pub fn takes(due: Due, class: Class) -> Option<&'static [Due]>
    ensures { Answers (spec.takes due class) result }
{
    match due {
        Due::Script => script(class),
        Due::NewName | Due::SplitName => name(class),
        Due::DefinedBy => defined_by(class),
        Due::Equal => after_sign(class, Symbol::Equal, &[]),
        Due::Operator => operator(class),
        Due::Less => after_sign(class, Symbol::Less, &[]),
        Due::Greater => after_sign(class, Symbol::Greater, &[]),
        Due::Whole => whole(class),
        Due::WholeDigits => whole_digits(class),
        Due::Direction => direction(class),
        Due::CloseOperator => close_operator(class),
        Due::Semicolon => after_sign(class, Symbol::Semicolon, &[]),
        Due::Claim => claim(class),
        Due::Prop => prop(class),
        Due::Operand => operand(class),
        Due::Tail => tail(class),
        Due::OpenParen => after_sign(class, Symbol::OpenParen, &[]),
        Due::CloseParen => after_sign(class, Symbol::CloseParen, &[]),
        Due::CloseBar => after_sign(class, Symbol::Bar, &[]),
        Due::Comma => after_sign(class, Symbol::Comma, &[]),
        Due::Fix => fix(class),
        Due::Relation => relation(class),
        Due::In => after_sign(class, Symbol::In, &[]),
        Due::Range => range(class),
        Due::Bound => bound(class),
        Due::Magnitude => magnitude(class),
        Due::CloseBracket => after_sign(class, Symbol::CloseBracket, &[]),
        Due::Connective => connective(class),
        Due::CloseBrace => after_sign(class, Symbol::CloseBrace, &[]),
        Due::Hints => hints(class),
        Due::HintRest => hint_rest(class),
        Due::GoalSplit => goal_split(class),
        Due::SplitNames => after_sign(class, Symbol::Comma, &[Due::SplitNames, Due::SplitName]),
        Due::SplitCut => after_sign(class, Symbol::In, &[Due::Cut]),
        Due::Cut => cut(class),
        Due::Points => after_sign(class, Symbol::Comma, &[Due::Points, Due::Bound]),
        Due::Needs => after_sign(
            class,
            Symbol::OpenBrace,
            &[
                Due::CloseBrace,
                Due::MoreNeeds,
                Due::NeedRelation,
                Due::Operand,
            ],
        ),
        Due::NeedRelation => need_relation(class),
        Due::Zero => zero(class),
        Due::MoreNeeds => after_sign(
            class,
            Symbol::Comma,
            &[Due::MoreNeeds, Due::NeedRelation, Due::Operand],
        ),
    }
}

// Whether it may be left out.
pub(crate) fn may_skip(due: Due) -> bool
    ensures { result ≡ spec.may_skip due }
{
    matches!(
        due,
        Due::Tail
            | Due::Connective
            | Due::Hints
            | Due::SplitNames
            | Due::SplitCut
            | Due::Points
            | Due::Needs
            | Due::MoreNeeds
    )
}

/// The role of a token that a due thing takes.
pub fn role_of(due: Due, class: Class) -> Due
    ensures { result ≡ spec.role_of due class }
{
    match (due, class) {
        (Due::Claim, Class::Sign(Symbol::Not)) => Due::Claim,
        (Due::Claim, Class::Sign(Symbol::At)) => Due::Prop,
        (Due::Claim, _) => Due::Operand,
        (Due::Prop, Class::Sign(Symbol::At)) => Due::Prop,
        (Due::Prop, _) => Due::Operand,
        (Due::Hints, Class::Sign(Symbol::Dollar)) => Due::Hints,
        (Due::Hints, _) => Due::Operand,
        _ => due,
    }
}
