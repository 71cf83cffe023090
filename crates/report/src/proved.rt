//! Lines of proved goals and of assumed hints.

ghost use Rattle.std.specs.Prelude.{◌≡◌, ◌++◌, ◌+◌, ◌<◌, ◌^◌, length, IfOk, OnOk, OnErr};
ghost use Rattle.report.specs.Lines.{interval_text};
ghost use Rattle.report.specs.Proved as spec;

use crate::joined::put_joined;
use crate::parts::part;
use facts::HintMark;
use goal_spans::Span;
use goals::Line;
use interval::Interval;
use script_words::lex::Token;
use std::alloc::{AllocError, Global};

// Appends the interval. `Err` only where memory runs out; the line may then have a part of it.
pub(crate) fn put_interval(line: &mut Vec<u8>, range: Interval) -> Result<(), AllocError>
    ensures added { OnOk result (line.new.items ≡ line.old.items ++ interval_text range) }
{
    let low = range.lo();
    let high = range.hi();
    let text = format!(in *line.allocator(); "[{low}, {high}]")?;
    line.extend_from_slice(text.as_bytes())
}

// Appends what is shown of a goal. `Err` only where memory runs out; the line may then have a part
// of it.
fn put_shown(line: &mut Vec<u8>, shown: Line) -> Result<(), AllocError>
    ensures added { OnOk result (line.new.items ≡ line.old.items ++ spec.shown_text shown) }
{
    match shown {
        Line::In(range) => put_interval(line, range),
        Line::None => line.extend_from_slice("none".as_bytes()),
        Line::Empty => line.extend_from_slice("empty".as_bytes()),
    }
}

// The line of a goal.
fn goal_line(
    alloc: Global,
    text: &[u8],
    tokens: &[Token],
    shown: Line,
) -> Result<Vec<u8>, AllocError>
    ensures { IfOk result (λ line. line.items ≡ spec.goal_line text.now tokens.now shown) }
{
    let mut line = Vec::new(alloc);
    put_joined(&mut line, text, tokens)?;
    line.extend_from_slice(" in ".as_bytes())?;
    put_shown(&mut line, shown)?;
    line.extend_from_slice("\n".as_bytes())?;
    Ok(line)
}

/// Appends the line of a goal, by the tokens of its expression and what is shown of it. `Err` only
/// where memory runs out; nothing is added then.
pub fn put_goal_line(
    lines: &mut Vec<u8>,
    text: &[u8],
    tokens: &[Token],
    shown: Line,
) -> Result<(), AllocError>
    ensures added { OnOk result
        (lines.new.items ≡ lines.old.items ++ spec.goal_line text.now tokens.now shown) }
    ensures kept { OnErr result (lines.new.items ≡ lines.old.items) }
{
    let line = goal_line(*lines.allocator(), text, tokens, shown)?;
    lines.extend_from_slice(&line)
}

// Appends a line for each goal. `Err` only where memory runs out; some lines may then be there.
fn put_goal_lines(
    out: &mut Vec<u8>,
    text: &[u8],
    tokens: &[Token],
    spans: &[Span],
    lines: &[Line],
) -> Result<(), AllocError>
    ensures added { OnOk result
        (out.new.items ≡ out.old.items ++ spec.goal_lines text.now tokens.now spans.now lines.now) }
{
    let mut spans_left = spans;
    let mut lines_left = lines;
    while let [span, later_spans @ ..] = spans_left {
        let [line, later_lines @ ..] = lines_left else {
            return Ok(());
        };
        put_goal_line(out, text, part(tokens, span.first, span.end), *line)?;
        spans_left = later_spans;
        lines_left = later_lines;
    }
    Ok(())
}

/// Appends the line of hint number `k`, counted from 1, where it is assumed; a checked hint has
/// none. `Err` only where memory runs out; nothing is added then.
pub fn put_hint_line(lines: &mut Vec<u8>, k: u128, mark: HintMark) -> Result<(), AllocError>
    ensures added { OnOk result (lines.new.items ≡ lines.old.items ++ spec.hint_line k mark) }
    ensures kept { OnErr result (lines.new.items ≡ lines.old.items) }
{
    match mark {
        HintMark::Checked => Ok(()),
        HintMark::Assumed => {
            let line = format!(in *lines.allocator(); "hint {k} assumed\n")?;
            lines.extend_from_slice(line.as_bytes())
        }
    }
}

// Appends a line for each assumed hint; the first of them is number k.
fn put_hint_lines(out: &mut Vec<u8>, k: u128, marks: &[HintMark]) -> Result<(), AllocError>
    requires { k + length marks.now < 2 ^ 127 }
    ensures added { OnOk result (out.new.items ≡ out.old.items ++ spec.hint_lines k marks.now) }
{
    match marks {
        [] => Ok(()),
        [mark, later @ ..] => {
            put_hint_line(out, k, *mark)?;
            put_hint_lines(out, k + 1, later)
        }
    }
}

/// What is printed of a script whose goals are proved: a line for each goal, then one for each
/// assumed hint. A goal's line begins with the tokens of its span. `Err` only where memory runs
/// out.
pub fn answer_text(
    alloc: Global,
    text: &[u8],
    tokens: &[Token],
    spans: &[Span],
    lines: &[Line],
    marks: &[HintMark],
) -> Result<Vec<u8>, AllocError>
    ensures { IfOk result (λ out. out.items
        ≡ spec.answer_text text.now tokens.now spans.now lines.now marks.now) }
{
    let mut out = Vec::new(alloc);
    put_goal_lines(&mut out, text, tokens, spans, lines)?;
    put_hint_lines(&mut out, 1, marks)?;
    Ok(out)
}

/// What is printed of the made script of degree n that is proved: how many boxes its tree has, and
/// what is shown of its goal. `Err` only where memory runs out.
pub fn made_text(alloc: Global, n: u8, boxes: u32, shown: Line) -> Result<Vec<u8>, AllocError>
    ensures { IfOk result (λ line. line.items ≡ spec.made_text n boxes shown) }
{
    let mut line = format!(in alloc; "gen {n}: {boxes} boxes, ")?.into_bytes();
    put_shown(&mut line, shown)?;
    line.extend_from_slice("\n".as_bytes())?;
    Ok(line)
}
