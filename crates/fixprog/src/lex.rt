//! Bytes to the tokens of a program.

ghost use Rattle.std.specs.Prelude.{◌≡◌, ◌≤◌, ◌<◌, ◌^◌, All, length, drop, IfSome, IfOk};
ghost use Rattle.fixprog.specs.Words as words;
ghost use Rattle.fixprog.specs.Lex as spec;
ghost use Rattle.fixprog.specs.Lex.{IsWithin, Lexes};

use crate::token::{Kind, ProgramToken};
use script_words::lex::{TokenKind, blank_len, front as script_front};
use std::alloc::{AllocError, Global};

/// How many digits stand at the front.
pub fn digits_len(text: &[u8]) -> usize
    ensures len { result ≡ spec.digits_len text.now }
    ensures within { result ≤ length text.now }
{
    text.iter().take_while(|b| b.is_ascii_digit()).count()
}

fn point_len(text: &[u8]) -> usize
    ensures len { result ≡ spec.point_len text.now }
    ensures within { result ≤ length text.now }
{
    let [first, rest @ ..] = text else { return 0 };
    let digits = digits_len(rest);
    if *first == b'.' && digits > 0 {
        1 + digits
    } else {
        0
    }
}

fn pointed_len(text: &[u8]) -> usize
    ensures len { result ≡ spec.pointed_len text.now }
    ensures within { result ≤ length text.now }
{
    let whole = digits_len(text);
    let point = point_len(&text[whole..]);
    if whole > 0 && point > 0 {
        whole + point
    } else {
        0
    }
}

/// The length of the longest format at the front, or 0.
fn format_len(text: &[u8]) -> usize
    ensures len { result ≡ spec.format_len text.now }
    ensures within { result ≤ length text.now }
{
    let [first, rest @ ..] = text else { return 0 };
    let numbers = pointed_len(rest);
    if (*first == b's' || *first == b'u') && numbers > 0 {
        1 + numbers
    } else {
        0
    }
}

/// A sign at the front that scripts lack.
fn own_sign(text: &[u8]) -> Option<(Kind, usize)>
    ensures sign { result ≡ spec.own_sign text.now }
    ensures within { IfSome result (λ found. (0 < found.1) × (found.1 ≤ length text.now)) }
{
    match text {
        [b':', ..] => Some((Kind::Colon, 1)),
        [b'>', b'>', ..] => Some((Kind::Right, 2)),
        [b'<', b'<', ..] => Some((Kind::Left, 2)),
        _ => None,
    }
}

fn name_kind(text: &[u8]) -> Kind
    ensures { result ≡ words.name_kind text.now }
{
    if text == b"out".as_slice() {
        Kind::Out
    } else {
        Kind::Name
    }
}

fn kind_of(kind: TokenKind, text: &[u8]) -> Kind
    ensures { result ≡ words.kind_of kind text.now }
{
    match kind {
        TokenKind::Name => name_kind(text),
        TokenKind::Literal => Kind::Literal,
        TokenKind::Sign(sign) => Kind::Sign(sign),
    }
}

/// The token at the front, with its length.
#[tactic(auto, unfolding(crate::specs::Lex::front))]
fn front(text: &[u8]) -> Option<(Kind, usize)>
    ensures token { result ≡ spec.front text.now }
    ensures within { IfSome result (λ found. (0 < found.1) × (found.1 ≤ length text.now)) }
{
    let format = format_len(text);
    if format > 0 {
        return Some((Kind::Format, format));
    }
    if let Some(found) = own_sign(text) {
        return Some(found);
    }
    match script_front(text) {
        Some((kind, len)) => Some((kind_of(kind, &text[..len]), len)),
        None => None,
    }
}

/// The tokens of a text, up to the first byte outside of blanks and comments that begins none.
#[derive(Drop)]
pub struct Lexed {
    pub tokens: Vec<ProgramToken>,
    pub bad: Option<u32>,
}

/// The text from a place on.
fn rest_at(text: &[u8], at: usize) -> &[u8]
    requires { at ≤ length text.now }
    ensures { result.now ≡ drop at text.now }
{
    &text[at..]
}

/// The tokens of a text. `Err` only where memory runs out.
pub fn lex(alloc: Global, text: &[u8]) -> Result<Lexed, AllocError>
    requires { length text.now < 2 ^ 32 }
    ensures tokens { IfOk result (λ lexed. Lexes 0 text.now lexed.tokens.items lexed.bad) }
    ensures within { IfOk result (λ lexed. All (IsWithin text.now) lexed.tokens.items) }
    ensures few { IfOk result (λ lexed. length lexed.tokens.items ≤ length text.now) }
{
    let mut tokens = Vec::new(alloc);
    let mut at = 0;
    while at < text.len() {
        let start = at + blank_len(rest_at(text, at));
        if start == text.len() {
            return Ok(Lexed { tokens, bad: None });
        }
        let Some((kind, len)) = front(rest_at(text, start)) else {
            return Ok(Lexed {
                tokens,
                bad: Some(start as u32),
            });
        };
        tokens.push(ProgramToken {
            kind,
            start: start as u32,
            end: (start + len) as u32,
        })?;
        at = start + len;
    }
    Ok(Lexed { tokens, bad: None })
}
