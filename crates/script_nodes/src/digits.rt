//! What the texts of words write.

ghost use Rattle.std.specs.Prelude.{◌≡◌, ◌≤◌};
ghost use Rattle.literal.specs.Normal.{IsNormal};
ghost use Rattle.script_nodes.specs.Operators as spec;
ghost use Rattle.script_nodes.specs.Literals as spec_literals;

use fx_model::{Direction, Literal};
use literal::read_bytes;
use script_words::digits::number_below;

const NOUGHT: Literal = Literal {
    num: 0,
    two: 0,
    ten: 0,
};

/// The number that digits write, and 512 where they write more.
#[tactic(auto, unfolding(crate::specs::Operators::number_of))]
pub fn number_of(digits: &[u8]) -> u16
    ensures number { result ≡ spec.number_of digits.now }
    ensures stopped { result ≤ 512 }
{
    match number_below(512, digits) {
        Some(number) => number as u16,
        None => 512,
    }
}

/// The direction of a word.
#[tactic(auto, unfolding(crate::specs::Operators::direction_of))]
pub fn direction_of(word: &[u8]) -> Direction
    ensures { result ≡ spec.direction_of word.now }
{
    if word == b"zr".as_slice() {
        Direction::Zr
    } else if word == b"aw".as_slice() {
        Direction::Aw
    } else if word == b"dn".as_slice() {
        Direction::Dn
    } else if word == b"up".as_slice() {
        Direction::Up
    } else if word == b"od".as_slice() {
        Direction::Od
    } else if word == b"ne".as_slice() {
        Direction::Ne
    } else if word == b"no".as_slice() {
        Direction::No
    } else if word == b"nz".as_slice() {
        Direction::Nz
    } else if word == b"na".as_slice() {
        Direction::Na
    } else if word == b"nd".as_slice() {
        Direction::Nd
    } else {
        Direction::Nu
    }
}

/// The literal that a text spells. Of other texts, and of literals past their limits, it is 0.
pub fn literal_of(text: &[u8]) -> Literal
    ensures literal { result ≡ spec_literals.literal_of text.now }
    ensures normal { IsNormal result }
{
    match read_bytes(text) {
        Ok(literal) => literal,
        Err(_) => NOUGHT,
    }
}
