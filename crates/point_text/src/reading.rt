//! The reading of points.

ghost use Rattle.std.specs.Prelude.{◌≡◌, ◌<◌, ◌≤◌, ◌⊎◌, ◌^◌, List, [], All, drop, length, map};
ghost use Rattle.std.specs.Prelude.{slice_get, Some, None, Err, IfOk, IfErr, IsNone, IfSome};
ghost use Rattle.std.specs.List.{AllByRecursion};
ghost use Rattle.literal.specs.Normal.{IsNormal};
ghost use Rattle.script_words.specs.declared.lex.TokenKind.TheVariants as kind;
ghost use Rattle.script_words.specs.Lex.{IsWithin, Lexes};
ghost use Rattle.script_words.specs.Named.{token_text};
ghost use Rattle.point_values.specs.Rows.{Row, IsRow};
ghost use Rattle.point_eval.specs.Points.{AreRowsOf};
ghost use Rattle.point_text.specs.Taken.{IsTaken, IsNameTaken, IsLiteralTaken, IsSignTaken};
ghost use Rattle.point_text.specs.Taken.{IsDivisorTaken, IsRowTaken, IsFirst, StartsAt, HasKind};
ghost use Rattle.point_text.specs.Taken.{IsUnexpected, IsLiteralRefused, IsDivisorRefused};
ghost use Rattle.point_text.specs.Taken.{IsRowRefused, IsNoName, IsPlaceRefused};
ghost use Rattle.point_text.specs.Gathered.{Gathered, IsUnset, RowsRefused, IsMissing};
ghost use Rattle.point_text.specs.Points.{SpellsPoint, IsShortText, IsDivisor, IsSetRow};
ghost use Rattle.point_text.specs.PointFaults.{IsPointFault, IsTextFault};
ghost use Rattle.point_text.specs.PointFaults as spec;

use crate::fault::{PointFault, PointKind, PointStop};
use fx_edge::Items;
use fx_model::Literal;
use literal::{LiteralFault, read_bytes};
use literal_order::Written;
use point_eval::Point;
use script_grammar::Script;
use script_nodes::laws::reads_literals;
use script_words::class::Symbol;
use script_words::lex::{Token, TokenKind, lexed_once};
use script_words::words::read_words;
use std::alloc::{AllocError, Global};

/// The greatest number of bytes of a point.
const MOST_BYTES: usize = 1 << 16;

// A text that is too long, or no text.
fn text_fault(text: &[u8]) -> Option<PointFault>
    ensures none { IsNone result → IsShortText text.now }
    ensures some { IfSome result (IsTextFault text.now) }
{
    if text.len() > MOST_BYTES {
        return Some(PointFault {
            kind: PointKind::Limit,
            at: MOST_BYTES as u32,
        });
    }
    match std::str::from_utf8(text) {
        Ok(_) => None,
        Err(error) => Some(PointFault {
            kind: PointKind::NotText,
            at: error.valid_up_to() as u32,
        }),
    }
}

// The fault of a token, or of what stands behind the last.
fn unexpected(rest: &[Token], end: PointFault) -> PointFault
    ensures { IsUnexpected rest.now end result }
{
    match rest {
        [] => end,
        [token, ..] => PointFault {
            kind: PointKind::Unexpected,
            at: token.start,
        },
    }
}

// The tokens behind a sign.
fn behind_sign<'t>(
    rest: &'t [Token],
    sign: Symbol,
    end: PointFault,
) -> Result<&'t [Token], PointFault>
    ensures shorter { IfOk result (λ later. length later.now < length rest.now) }
    ensures taken { IfOk result (λ later. IsTaken (kind.Sign sign) rest.now later.now) }
    ensures tail { IfOk result (λ later. later.now ≡ drop 1 rest.now) }
    ensures refused { IfErr result (λ f. IsUnexpected rest.now end f
        × ¬ HasKind (kind.Sign sign) rest.now) }
{
    if let [token, later @ ..] = rest {
        if token.kind == TokenKind::Sign(sign) {
            return Ok(later);
        }
    }
    Err(unexpected(rest, end))
}

// The text of a token.
fn text_of<'a>(text: &'a [u8], token: Token) -> &'a [u8]
    requires { IsWithin text.now token }
    ensures { result.now ≡ token_text text.now token }
{
    &text[token.start as usize..token.end as usize]
}

// Whether a minus stands here, and the tokens behind the sign, if there is one.
fn signed_rest<'t>(rest: &'t [Token]) -> (bool, &'t [Token])
    ensures shorter { length result.1.now ≤ length rest.now }
    ensures taken { IsSignTaken rest.now result.0 result.1.now }
    ensures tail { (result.1.now ≡ rest.now) ⊎ (result.1.now ≡ drop 1 rest.now) }
{
    if let [token, later @ ..] = rest {
        if token.kind == TokenKind::Sign(Symbol::Minus) {
            return (true, later);
        }
        if token.kind == TokenKind::Sign(Symbol::Plus) {
            return (false, later);
        }
    }
    (false, rest)
}

// A name, the byte at which it stands, and the tokens behind it.
fn name_of<'a, 't>(
    text: &'a [u8],
    rest: &'t [Token],
    end: PointFault,
) -> Result<(&'a [u8], u32, &'t [Token]), PointFault>
    requires { All (IsWithin text.now) rest.now }
    ensures shorter { IfOk result (λ read. length read.2.now < length rest.now) }
    ensures taken { IfOk result (λ read. IsNameTaken text.now rest.now read.0.now read.2.now) }
    ensures tail { IfOk result (λ read. read.2.now ≡ drop 1 rest.now) }
    ensures within { IfOk result (λ read. All (IsWithin text.now) read.2.now) }
    ensures start { IfOk result (λ read. StartsAt rest.now read.1) }
    ensures refused { IfErr result (λ f.
        IsUnexpected rest.now end f × ¬ HasKind kind.Name rest.now) }
{
    if let [token, later @ ..] = rest {
        if token.kind == TokenKind::Name {
            return Ok((text_of(text, *token), token.start, later));
        }
    }
    Err(unexpected(rest, end))
}

// A literal, the byte at which it stands, and the tokens behind it.
fn literal_of<'t>(
    text: &[u8],
    rest: &'t [Token],
    end: PointFault,
) -> Result<(Literal, u32, &'t [Token]), PointFault>
    requires { All (IsWithin text.now) rest.now }
    ensures normal { IfOk result (λ read. IsNormal read.0) }
    ensures shorter { IfOk result (λ read. length read.2.now < length rest.now) }
    ensures taken { IfOk result (λ read. IsLiteralTaken text.now rest.now read.0 read.2.now) }
    ensures tail { IfOk result (λ read. read.2.now ≡ drop 1 rest.now) }
    ensures within { IfOk result (λ read. All (IsWithin text.now) read.2.now) }
    ensures start { IfOk result (λ read. StartsAt rest.now read.1) }
    ensures refused { IfErr result (IsLiteralRefused text.now rest.now end) }
{
    if let [token, later @ ..] = rest {
        if token.kind == TokenKind::Literal {
            return match read_bytes(text_of(text, *token)) {
                Ok(literal) => Ok((literal, token.start, later)),
                Err(_) => Err(PointFault {
                    kind: PointKind::LiteralLimit,
                    at: token.start,
                }),
            };
        }
    }
    Err(unexpected(rest, end))
}

// What a number is divided by, if a slash stands here, and the tokens behind it.
#[tactic(auto, using(crate::proofs::Literals::zero_refused))]
fn divisor_of<'t>(
    text: &[u8],
    rest: &'t [Token],
    end: PointFault,
) -> Result<(Option<Literal>, &'t [Token]), PointFault>
    requires { All (IsWithin text.now) rest.now }
    ensures normal { IfOk result (λ read. IsDivisor read.0) }
    ensures taken { IfOk result (λ read. IsDivisorTaken text.now rest.now read.0 read.1.now) }
    ensures tail { IfOk result (λ read. All (IsWithin text.now) read.1.now) }
    ensures shorter { IfOk result (λ read. length read.1.now ≤ length rest.now) }
    ensures refused { IfErr result (IsDivisorRefused text.now rest.now end) }
{
    if let [token, later @ ..] = rest {
        if token.kind == TokenKind::Sign(Symbol::Slash) {
            let (literal, at, later) = literal_of(text, later, end)?;
            if literal.num == 0 {
                return Err(PointFault {
                    kind: PointKind::ZeroDivisor,
                    at,
                });
            }
            return Ok((Some(literal), later));
        }
    }
    Ok((None, rest))
}

// What an entry says behind its name, and the tokens behind it.
#[tactic(auto, using(crate::proofs::Rows::refusals))]
fn row_of<'t>(
    text: &[u8],
    rest: &'t [Token],
    end: PointFault,
) -> Result<((Written, Option<Literal>), &'t [Token]), PointFault>
    requires { All (IsWithin text.now) rest.now }
    ensures normal { IfOk result (λ read. IsRow read.0) }
    ensures taken { IfOk result (λ read. IsRowTaken text.now rest.now read.0 read.1.now) }
    ensures within { IfOk result (λ read. All (IsWithin text.now) read.1.now) }
    ensures shorter { IfOk result (λ read. length read.1.now < length rest.now) }
    ensures refused { IfErr result (IsRowRefused text.now rest.now end) }
{
    let rest = behind_sign(rest, Symbol::Equal, end)?;
    let (negative, rest) = signed_rest(rest);
    let (literal, _, rest) = literal_of(text, rest, end)?;
    let (divisor, rest) = divisor_of(text, rest, end)?;
    let rest = behind_sign(rest, Symbol::Semicolon, end)?;
    Ok(((Written { literal, negative }, divisor), rest))
}

// The number of the variable with this name.
#[tactic(auto, using(crate::proofs::Places::all_past))]
fn variable_of(script: &Script<'_>, name: &[u8]) -> Option<u16>
    ensures first { IfSome result (IsFirst script.now.variables name.now) }
    ensures none { IsNone result → IsNoName script.now.variables name.now }
{
    for number in 0..script.variable_count() {
        if let Some(variable) = script.variable(number) {
            if variable == name {
                return Some(number);
            }
        }
    }
    None
}

// A row for each variable, none of them set.
fn no_rows(
    alloc: Global,
    script: &Script<'_>,
) -> Result<Vec<Option<(Written, Option<Literal>)>>, AllocError>
    ensures count { IfOk result (λ rows. length rows.items ≡ length script.now.variables) }
    ensures normal { IfOk result (λ rows. AllByRecursion IsSetRow rows.items) }
    ensures unset { IfOk result (λ rows. AllByRecursion IsUnset rows.items) }
{
    let mut rows = Vec::new(alloc);
    for _ in 0..script.variable_count() {
        rows.push(None)?;
    }
    Ok(rows)
}

// The place of a name's row, unless it isn't a variable's or its row is set.
fn place_of(
    script: &Script<'_>,
    rows: &[Option<(Written, Option<Literal>)>],
    name: &[u8],
    at: u32,
) -> Result<usize, PointFault>
    ensures within { IfOk result (λ place. place < length rows.now) }
    ensures first { IfOk result (IsFirst script.now.variables name.now) }
    ensures unset { IfOk result (λ place. slice_get rows.now place ≡ Some None) }
    ensures refused { IfErr result (IsPlaceRefused script.now.variables rows.now name.now at) }
{
    let Some(number) = variable_of(script, name) else {
        return Err(PointFault {
            kind: PointKind::Unknown,
            at,
        });
    };
    let place = usize::from(number);
    match rows.get(place) {
        Some(None) => Ok(place),
        _ => Err(PointFault {
            kind: PointKind::Twice,
            at,
        }),
    }
}

// All rows, if all are set.
#[tactic(auto, using(crate::proofs::Gathering::missing_here))]
fn all_rows(
    alloc: Global,
    rows: &[Option<(Written, Option<Literal>)>],
    len: u32,
) -> Result<Vec<(Written, Option<Literal>)>, PointStop>
    requires { AllByRecursion IsSetRow rows.now }
    ensures count { IfOk result (λ all. length all.items ≡ length rows.now) }
    ensures normal { IfOk result (λ all. AllByRecursion IsRow all.items) }
    ensures all { IfOk result (λ all. rows.now ≡ map (λ r. Some r) all.items) }
    ensures missing { (f : PointFault) → result ≡ Err (PointStop.Fault f)
        → IsMissing rows.now len f }
{
    let mut all = Vec::new(alloc);
    let mut rest = rows;
    while let [row, later @ ..] = rest {
        let Some(row) = *row else {
            return Err(PointStop::Fault(PointFault {
                kind: PointKind::Missing,
                at: len,
            }));
        };
        all.push(row)?;
        rest = later;
    }
    Ok(all)
}

// The rows that tokens say, up to the first fault.
#[tactic(auto, using(crate::proofs::Gathering::gathers))]
fn rows_of(
    alloc: Global,
    script: &Script<'_>,
    text: &[u8],
    tokens: &[Token],
    end: PointFault,
) -> Result<Vec<Option<(Written, Option<Literal>)>>, PointStop>
    requires { All (IsWithin text.now) tokens.now }
    ensures count { IfOk result (λ rows. length rows.items ≡ length script.now.variables) }
    ensures normal { IfOk result (λ rows. AllByRecursion IsSetRow rows.items) }
    ensures gathered { IfOk result (λ rows. Gathered script.now.variables text.now tokens.now []
        rows.items) }
    ensures refused { (f : PointFault) → result ≡ Err (PointStop.Fault f)
        → RowsRefused script.now.variables text.now tokens.now end f }
{
    let mut rows = no_rows(alloc, script)?;
    let mut rest = tokens;
    while !rest.is_empty() {
        let (name, at, later) = name_of(text, rest, end)?;
        let place = place_of(script, rows.as_slice(), name, at)?;
        let (row, behind) = row_of(text, later, end)?;
        rows[place] = Some(row);
        rest = behind;
    }
    Ok(rows)
}

// What stands behind the last token.
fn end_of(text: &[u8], bad: Option<u32>) -> PointFault
    requires { length text.now ≤ 2 ^ 16 }
    ensures { result ≡ spec.end_of text.now bad }
{
    match bad {
        None => PointFault {
            kind: PointKind::Unexpected,
            at: text.len() as u32,
        },
        Some(at) => PointFault {
            kind: PointKind::BadToken,
            at,
        },
    }
}

// What rows say once all tokens have been read: all of them, or the fault at the text's end.
fn rows_behind(
    alloc: Global,
    script: &Script<'_>,
    text: &[u8],
    tokens: &[Token],
    rows: &[Option<(Written, Option<Literal>)>],
    bad: Option<u32>,
) -> Result<Vec<(Written, Option<Literal>)>, PointStop>
    requires short { IsShortText text.now }
    requires lexed { Lexes 0 text.now tokens.now bad }
    requires count { length rows.now ≡ length script.now.variables }
    requires normal { AllByRecursion IsSetRow rows.now }
    requires gathered { Gathered script.now.variables text.now tokens.now [] rows.now }
    ensures spelled { IfOk result (λ all. SpellsPoint script.now.variables text.now all.items) }
    ensures rows { IfOk result (λ all. AreRowsOf script.now.variables all.items) }
    ensures fault { (f : PointFault) → result ≡ Err (PointStop.Fault f)
        → IsPointFault script.now.variables text.now f }
{
    reads_literals();
    script.laws();
    match bad {
        Some(_) => Err(PointStop::Fault(end_of(text, bad))),
        None => all_rows(alloc, rows, text.len() as u32),
    }
}

// The rows that the tokens of a text say, or its first fault.
fn rows_read(
    alloc: Global,
    script: &Script<'_>,
    text: &[u8],
    tokens: &[Token],
    bad: Option<u32>,
) -> Result<Vec<(Written, Option<Literal>)>, PointStop>
    requires short { IsShortText text.now }
    requires lexed { Lexes 0 text.now tokens.now bad }
    requires within { All (IsWithin text.now) tokens.now }
    ensures spelled { IfOk result (λ rows. SpellsPoint script.now.variables text.now rows.items) }
    ensures rows { IfOk result (λ rows. AreRowsOf script.now.variables rows.items) }
    ensures fault { (f : PointFault) → result ≡ Err (PointStop.Fault f)
        → IsPointFault script.now.variables text.now f }
{
    reads_literals();
    let end = end_of(text, bad);
    match rows_of(alloc, script, text, tokens, end) {
        Ok(rows) => rows_behind(alloc, script, text, tokens, rows.as_slice(), bad),
        Err(stop) => Err(stop),
    }
}

// The point that a text spells, or its first fault.
fn point_of(alloc: Global, script: &Script<'_>, text: &[u8]) -> Result<Point, PointStop>
    ensures spelled { IfOk result (λ point. SpellsPoint script.now.variables text.now point.rows) }
    ensures rows { IfOk result (λ point. AreRowsOf script.now.variables point.rows) }
    ensures fault { (f : PointFault) → result ≡ Err (PointStop.Fault f)
        → IsPointFault script.now.variables text.now f }
{
    if let Some(fault) = text_fault(text) {
        return Err(PointStop::Fault(fault));
    }
    let words = read_words(alloc, text)?;
    let tokens = words.list().tokens(alloc)?;
    match rows_read(alloc, script, text, tokens.as_slice(), words.bad) {
        Ok(rows) => Ok(Point {
            rows: Items::from_vec(rows),
        }),
        Err(stop) => Err(stop),
    }
}

/// The point that a text spells for a script, or its first fault.
pub fn read_point(alloc: Global, script: &Script<'_>, text: &[u8]) -> Result<Point, PointStop>
    // What is answered is spelled, and what is refused has this fault.
    ensures spelled { IfOk result (λ point. SpellsPoint script.now.variables text.now point.rows) }
    ensures rows { IfOk result (λ point. AreRowsOf script.now.variables point.rows) }
    ensures fault { (f : PointFault) → result ≡ Err (PointStop.Fault f)
        → IsPointFault script.now.variables text.now f }
    // What is spelled is answered, lack of memory aside.
    ensures answered { (rows : List Row) → SpellsPoint script.now.variables text.now rows
        → IfOk result (λ point. point.rows ≡ rows)
        × ((f : PointFault) → ¬ (result ≡ Err (PointStop.Fault f))) }
{
    reads_literals();
    lexed_once();
    point_of(alloc, script, text)
}
