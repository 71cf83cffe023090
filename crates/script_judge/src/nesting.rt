//! What is open around a token.

ghost use Rattle.std.specs.Prelude.{◌≡◌, reverse, OnOk};
ghost use Rattle.script_words.specs.Named.{word_of};
ghost use Rattle.script_judge.specs.Nesting as spec;

use script_shape::due::Due;
use script_words::class::Symbol;
use script_words::words::Word;
use std::alloc::AllocError;

/// What is open.
#[derive(Clone, Copy, Debug, PartialEq, Eq)]
pub enum Open {
    /// A parenthesis or a bar.
    Pair,
    /// A minus sign whose factor isn't complete.
    Minus,
}

/// Ends the minus signs before an operand that is complete.
fn drop_minus(opened: &mut Vec<Open>) -> Result<(), AllocError>
    ensures { OnOk result (reverse opened.new.items
        ≡ spec.without_minus (reverse opened.old.items)) }
{
    while let Some(top) = opened.pop() {
        if let Open::Pair = top {
            opened.push(Open::Pair)?;
            return Ok(());
        }
    }
    Ok(())
}

/// Ends what a closing sign closes.
fn close(opened: &mut Vec<Open>) -> Result<(), AllocError>
    ensures { OnOk result (reverse opened.new.items ≡ spec.closed (reverse opened.old.items)) }
{
    let Some(_) = opened.pop() else {
        return Ok(());
    };
    drop_minus(opened)
}

fn open_by_sign(opened: &mut Vec<Open>, sign: Symbol) -> Result<(), AllocError>
    ensures { OnOk result (reverse opened.new.items
        ≡ spec.opened_by_sign sign (reverse opened.old.items)) }
{
    match sign {
        Symbol::OpenParen | Symbol::Bar => opened.push(Open::Pair)?,
        Symbol::Minus => opened.push(Open::Minus)?,
        _ => {}
    }
    Ok(())
}

fn open_by_operand(opened: &mut Vec<Open>, word: Word<'_>) -> Result<(), AllocError>
    ensures { OnOk result (reverse opened.new.items
        ≡ spec.opened_by_operand (word_of word.entry) (reverse opened.old.items)) }
{
    match word {
        Word::Literal(..) | Word::Name(..) => drop_minus(opened)?,
        Word::Rounding(..) => {}
        Word::Sign(sign) => open_by_sign(opened, sign)?,
    }
    Ok(())
}

/// Takes a token. After an `Err` it is not to be used on.
pub fn open_or_close(opened: &mut Vec<Open>, role: Due, word: Word<'_>) -> Result<(), AllocError>
    ensures { OnOk result (reverse opened.new.items
        ≡ spec.opened_after (reverse opened.old.items) role (word_of word.entry)) }
{
    match role {
        Due::Operand => open_by_operand(opened, word)?,
        Due::OpenParen => opened.push(Open::Pair)?,
        Due::CloseParen | Due::CloseBar => close(opened)?,
        _ => {}
    }
    Ok(())
}
