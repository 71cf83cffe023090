//! The one spelling of each item.
ghost use Rattle.std.specs.Prelude.{pos, negsuc, ◌≤ℤ◌, ◌≡◌, ◌++◌, ◌≤◌, ◌∷◌, length, OnOk, OnErr};
ghost use Rattle.fx_model.specs.declared.ExprId.{ExprId};
ghost use Rattle.literal.specs.Normal.{IsNormal};
ghost use Rattle.expr_dag.specs.Nodes.{IsInLimits};
ghost use Rattle.cert_bytes.specs.Spelling as spell;
ghost use Rattle.cert_bytes.specs.declared.style.Style.TheVariants.{First, Second};
ghost use Rattle.cert_bytes.specs.Fronts.{IsFront};
ghost use Rattle.cert_bytes.specs.Certificates.{HasSpelling, IsCounted};

use crate::based::{distance, zigzag};
use crate::item::{Item, StepRow};
use crate::style::{Seen, Style};
use dyadic::{Dyadic, End, Points};
use facts::{Fact, HintMark};
use fx_model::{Direction, ExprId, Literal, Node};
use interval::Interval;
use std::alloc::AllocError;

/// The bytes that each certificate begins with, before its version: "FXPC".
const MAGIC: [u8; 4] = [0x46, 0x58, 0x50, 0x43];

// A number in base 128, the low digits first.
fn put_based(n: u128, out: &mut Vec<u8>) -> Result<(), AllocError>
    ensures ok { OnOk result (out.new.items ≡ out.old.items ++ spell.based n) }
    ensures err { OnErr result (IsFront out.old.items out.new.items) }
{
    let mut rest = n;
    let mut left = 19u8;
    while rest >= 128 {
        out.push((rest % 128) as u8 + 128)?;
        rest /= 128;
        left -= 1;
    }
    out.push(rest as u8)?;
    Ok(())
}

#[tactic(auto, unfolding(crate::specs::Spelling::tiny))]
fn put_tiny(style: Style, n: u8, out: &mut Vec<u8>) -> Result<(), AllocError>
    ensures ok { OnOk result (out.new.items ≡ out.old.items ++ spell.tiny n style) }
    ensures err { OnErr result (IsFront out.old.items out.new.items) }
{
    match style {
        Style::First => out.push(n)?,
        Style::Second(_) => put_based(u128::from(n), out)?,
    }
    Ok(())
}

#[tactic(auto, unfolding(crate::specs::Spelling::short))]
fn put_short(style: Style, n: u16, out: &mut Vec<u8>) -> Result<(), AllocError>
    ensures ok { OnOk result (out.new.items ≡ out.old.items ++ spell.short n style) }
    ensures err { OnErr result (IsFront out.old.items out.new.items) }
{
    match style {
        Style::First => out.extend_from_slice(&n.to_be_bytes())?,
        Style::Second(_) => put_based(u128::from(n), out)?,
    }
    Ok(())
}

#[tactic(auto, unfolding(crate::specs::Spelling::signed_short))]
fn put_signed(style: Style, n: i16, out: &mut Vec<u8>) -> Result<(), AllocError>
    ensures ok { OnOk result (out.new.items ≡ out.old.items ++ spell.signed_short n style) }
    ensures err { OnErr result (IsFront out.old.items out.new.items) }
{
    match style {
        Style::First => out.extend_from_slice(&n.to_be_bytes())?,
        Style::Second(_) => put_based(u128::from(zigzag(i64::from(n))), out)?,
    }
    Ok(())
}

#[tactic(auto, unfolding(crate::specs::Spelling::reference))]
fn put_reference(style: Style, n: u64, out: &mut Vec<u8>) -> Result<(), AllocError>
    ensures ok { OnOk result (out.new.items ≡ out.old.items ++ spell.reference n style) }
    ensures err { OnErr result (IsFront out.old.items out.new.items) }
{
    match style {
        Style::First => out.extend_from_slice(&n.to_be_bytes())?,
        Style::Second(seen) => put_based(u128::from(distance(seen.steps, n)), out)?,
    }
    Ok(())
}

#[tactic(auto, unfolding(crate::specs::Spelling::signed_long))]
fn put_signed_long(style: Style, n: i64, out: &mut Vec<u8>) -> Result<(), AllocError>
    ensures ok { OnOk result (out.new.items ≡ out.old.items ++ spell.signed_long n style) }
    ensures err { OnErr result (IsFront out.old.items out.new.items) }
{
    match style {
        Style::First => out.extend_from_slice(&n.to_be_bytes())?,
        Style::Second(_) => put_based(u128::from(zigzag(n)), out)?,
    }
    Ok(())
}

#[tactic(auto, unfolding(crate::specs::Spelling::wide))]
fn put_wide(style: Style, n: u128, out: &mut Vec<u8>) -> Result<(), AllocError>
    ensures ok { OnOk result (out.new.items ≡ out.old.items ++ spell.wide n style) }
    ensures err { OnErr result (IsFront out.old.items out.new.items) }
{
    match style {
        Style::First => out.extend_from_slice(&n.to_be_bytes())?,
        Style::Second(_) => put_based(n, out)?,
    }
    Ok(())
}

fn put_pair(style: Style, x: ExprId, y: ExprId, out: &mut Vec<u8>) -> Result<(), AllocError>
    ensures ok { OnOk result (out.new.items
        ≡ out.old.items ++ (spell.short x.0 style ++ spell.short y.0 style)) }
    ensures err { OnErr result (IsFront out.old.items out.new.items) }
{
    put_short(style, x.0, out)?;
    put_short(style, y.0, out)
}

fn put_point(style: Style, d: Dyadic, out: &mut Vec<u8>) -> Result<(), AllocError>
    ensures ok { OnOk result (out.new.items ≡ out.old.items ++ spell.point d style) }
    ensures err { OnErr result (IsFront out.old.items out.new.items) }
{
    put_signed_long(style, d.mantissa(), out)?;
    put_signed(style, d.exponent() as i16, out)
}

fn put_end(style: Style, end: End, out: &mut Vec<u8>) -> Result<(), AllocError>
    ensures ok { OnOk result (out.new.items ≡ out.old.items ++ spell.end end style) }
    ensures err { OnErr result (IsFront out.old.items out.new.items) }
{
    match end {
        End::At(d) => {
            out.push(0)?;
            put_point(style, d, out)?;
        }
        End::Low => out.push(1)?,
        End::High => out.push(2)?,
    }
    Ok(())
}

fn put_interval(style: Style, i: Interval, out: &mut Vec<u8>) -> Result<(), AllocError>
    ensures ok { OnOk result (out.new.items ≡ out.old.items ++ spell.interval i style) }
    ensures err { OnErr result (IsFront out.old.items out.new.items) }
{
    put_end(style, i.lo(), out)?;
    put_end(style, i.hi(), out)
}

fn put_fact(style: Style, fact: &Fact, out: &mut Vec<u8>) -> Result<(), AllocError>
    ensures ok { OnOk result (out.new.items ≡ out.old.items ++ spell.fact_bytes fact.now style) }
    ensures err { OnErr result (IsFront out.old.items out.new.items) }
{
    match *fact {
        Fact::Bnd(x, i) => {
            out.push(1)?;
            put_short(style, x.0, out)?;
            put_interval(style, i, out)?;
        }
        Fact::Abs(x, s) => {
            out.push(2)?;
            put_short(style, x.0, out)?;
            put_interval(style, s.interval(), out)?;
        }
        Fact::Rel(x, y, None) => {
            out.push(3)?;
            put_pair(style, x, y, out)?;
            out.push(1)?;
        }
        Fact::Rel(x, y, Some(e)) => {
            out.push(3)?;
            put_pair(style, x, y, out)?;
            out.push(0)?;
            put_interval(style, e.interval(), out)?;
        }
        Fact::Fix(x, k) => {
            out.push(4)?;
            put_short(style, x.0, out)?;
            put_signed(style, k.exponent(), out)?;
        }
        Fact::Nzr(x) => {
            out.push(5)?;
            put_short(style, x.0, out)?;
        }
        Fact::Void => out.push(6)?,
    }
    Ok(())
}

fn direction_byte(dir: Direction) -> u8
    ensures { result ≡ spell.direction_byte dir }
{
    match dir {
        Direction::Zr => 0,
        Direction::Aw => 1,
        Direction::Dn => 2,
        Direction::Up => 3,
        Direction::Od => 4,
        Direction::Ne => 5,
        Direction::No => 6,
        Direction::Nz => 7,
        Direction::Na => 8,
        Direction::Nd => 9,
        Direction::Nu => 10,
    }
}

fn put_pair_node(
    style: Style,
    tag: u8,
    x: ExprId,
    y: ExprId,
    out: &mut Vec<u8>,
) -> Result<(), AllocError>
    ensures ok { OnOk result (out.new.items
        ≡ out.old.items ++ tag ∷ (spell.short x.0 style ++ spell.short y.0 style)) }
    ensures err { OnErr result (IsFront out.old.items out.new.items) }
{
    out.push(tag)?;
    put_pair(style, x, y, out)
}

fn put_one_node(style: Style, tag: u8, x: u16, out: &mut Vec<u8>) -> Result<(), AllocError>
    ensures ok { OnOk result (out.new.items ≡ out.old.items ++ tag ∷ spell.short x style) }
    ensures err { OnErr result (IsFront out.old.items out.new.items) }
{
    out.push(tag)?;
    put_short(style, x, out)
}

fn as_short(n: i32) -> i16
    requires low { negsuc 32767 ≤ℤ n }
    requires high { n ≤ℤ pos 32767 }
    ensures { result ≡ n }
{
    n as i16
}

fn put_exponents(style: Style, two: i16, ten: i16, out: &mut Vec<u8>) -> Result<(), AllocError>
    ensures ok { OnOk result (out.new.items
        ≡ out.old.items ++ (spell.signed_short two style ++ spell.signed_short ten style)) }
    ensures err { OnErr result (IsFront out.old.items out.new.items) }
{
    put_signed(style, two, out)?;
    put_signed(style, ten, out)
}

fn put_literal(style: Style, l: Literal, out: &mut Vec<u8>) -> Result<(), AllocError>
    requires { IsNormal l }
    ensures ok { OnOk result (out.new.items ≡ out.old.items ++ (spell.wide l.num style
        ++ (spell.signed_short l.two style ++ spell.signed_short l.ten style))) }
    ensures err { OnErr result (IsFront out.old.items out.new.items) }
{
    put_wide(style, l.num, out)?;
    put_exponents(style, as_short(l.two), as_short(l.ten), out)
}

fn put_node(style: Style, node: Node, out: &mut Vec<u8>) -> Result<(), AllocError>
    requires { IsInLimits node }
    ensures ok { OnOk result (out.new.items ≡ out.old.items ++ spell.node_bytes node style) }
    ensures err { OnErr result (IsFront out.old.items out.new.items) }
{
    match node {
        Node::Var(n) => put_one_node(style, 0, n, out)?,
        Node::Lit(l) => {
            out.push(1)?;
            put_literal(style, l, out)?;
        }
        Node::Neg(x) => put_one_node(style, 2, x.0, out)?,
        Node::Add(x, y) => put_pair_node(style, 3, x, y, out)?,
        Node::Sub(x, y) => put_pair_node(style, 4, x, y, out)?,
        Node::Mul(x, y) => put_pair_node(style, 5, x, y, out)?,
        Node::Div(x, y) => put_pair_node(style, 6, x, y, out)?,
        Node::Abs(x) => put_one_node(style, 7, x.0, out)?,
        Node::Round(r, x) => {
            out.push(8)?;
            out.push(direction_byte(r.dir))?;
            put_signed(style, r.lsb, out)?;
            put_short(style, x.0, out)?;
        }
    }
    Ok(())
}

fn mark_byte(mark: HintMark) -> u8
    ensures { result ≡ spell.mark_byte mark }
{
    match mark {
        HintMark::Checked => 0,
        HintMark::Assumed => 1,
    }
}

fn put_references(style: Style, numbers: &[u64], out: &mut Vec<u8>) -> Result<(), AllocError>
    ensures ok { OnOk result (out.new.items ≡ out.old.items ++ spell.references numbers.now style) }
    ensures err { OnErr result (IsFront out.old.items out.new.items) }
{
    for number in numbers {
        put_reference(style, *number, out)?;
    }
    Ok(())
}

fn put_counted(style: Style, numbers: &[u64], out: &mut Vec<u8>) -> Result<(), AllocError>
    requires { IsCounted numbers.now }
    ensures ok { OnOk result (out.new.items ≡ out.old.items ++ spell.counted numbers.now style) }
    ensures err { OnErr result (IsFront out.old.items out.new.items) }
{
    put_short(style, numbers.len() as u16, out)?;
    put_references(style, numbers, out)
}

fn put_optional(style: Style, number: Option<u64>, out: &mut Vec<u8>) -> Result<(), AllocError>
    ensures ok { OnOk result (out.new.items ≡ out.old.items ++ spell.optional number style) }
    ensures err { OnErr result (IsFront out.old.items out.new.items) }
{
    match number {
        None => out.push(0)?,
        Some(n) => {
            out.push(1)?;
            put_reference(style, n, out)?;
        }
    }
    Ok(())
}

fn put_claim(style: Style, step: &StepRow, out: &mut Vec<u8>) -> Result<(), AllocError>
    ensures ok { OnOk result (out.new.items ≡ out.old.items ++ spell.claim_bytes step.now style) }
    ensures err { OnErr result (IsFront out.old.items out.new.items) }
{
    out.push(1)?;
    out.push(step.rule)?;
    put_short(style, step.arg, out)?;
    put_fact(style, &step.fact, out)
}

fn put_cited(style: Style, step: &StepRow, out: &mut Vec<u8>) -> Result<(), AllocError>
    requires { IsCounted step.now.premises }
    ensures ok { OnOk result (out.new.items ≡ out.old.items ++ spell.cited_bytes step.now style) }
    ensures err { OnErr result (IsFront out.old.items out.new.items) }
{
    put_optional(style, step.with, out)?;
    put_counted(style, step.premises.as_slice(), out)
}

fn put_step(style: Style, step: &StepRow, out: &mut Vec<u8>) -> Result<(), AllocError>
    requires { IsCounted step.now.premises }
    ensures ok { OnOk result (out.new.items ≡ out.old.items ++ spell.step_bytes step.now style) }
    ensures err { OnErr result (IsFront out.old.items out.new.items) }
{
    put_claim(style, step, out)?;
    put_cited(style, step, out)
}

fn put_points(style: Style, points: &Points, out: &mut Vec<u8>) -> Result<(), AllocError>
    ensures ok { OnOk result (out.new.items ≡ out.old.items ++ spell.points points.now style) }
    ensures err { OnErr result (IsFront out.old.items out.new.items) }
{
    for i in 0..points.len() {
        put_point(style, points.point(i), out)?;
    }
    Ok(())
}

fn put_cut(style: Style, var: ExprId, points: &Points, out: &mut Vec<u8>) -> Result<(), AllocError>
    ensures ok { OnOk result (out.new.items ≡ out.old.items ++ 2 ∷ (spell.short var.0 style
        ++ (spell.tiny (length points.now) style ++ spell.points points.now style))) }
    ensures err { OnErr result (IsFront out.old.items out.new.items) }
{
    out.push(2)?;
    put_short(style, var.0, out)?;
    put_tiny(style, points.len(), out)?;
    put_points(style, points, out)
}

fn put_cases(style: Style, count: u8, out: &mut Vec<u8>) -> Result<(), AllocError>
    ensures ok { OnOk result (out.new.items ≡ out.old.items ++ 5 ∷ spell.tiny count style) }
    ensures err { OnErr result (IsFront out.old.items out.new.items) }
{
    out.push(5)?;
    put_tiny(style, count, out)
}

fn put_head(style: Style, out: &mut Vec<u8>) -> Result<(), AllocError>
    ensures ok { OnOk result (out.new.items ≡ out.old.items ++ spell.head style) }
    ensures err { OnErr result (IsFront out.old.items out.new.items) }
{
    out.extend_from_slice(&MAGIC)?;
    match style {
        Style::First => out.push(1)?,
        Style::Second(_) => out.push(2)?,
    }
    Ok(())
}

fn put_trailer(style: Style, out: &mut Vec<u8>) -> Result<(), AllocError>
    ensures ok { OnOk result (out.new.items ≡ out.old.items ++ spell.trailer style) }
    ensures err { OnErr result (IsFront out.old.items out.new.items) }
{
    if let Style::Second(seen) = style {
        out.push(6)?;
        put_based(u128::from(seen.sections), out)?;
        put_based(u128::from(seen.steps), out)?;
    }
    Ok(())
}

// Appends it, and may leave a front of it behind where memory isn't found.
fn put_item(style: Style, item: &Item, out: &mut Vec<u8>) -> Result<(), AllocError>
    requires { HasSpelling item.now }
    ensures ok { OnOk result (out.new.items ≡ out.old.items ++ spell.spelling item.now style) }
    ensures err { OnErr result (IsFront out.old.items out.new.items) }
{
    match item {
        Item::Nodes(n) => {
            put_head(style, out)?;
            put_short(style, *n, out)?;
        }
        Item::Node(node) => put_node(style, *node, out)?,
        Item::Marks(n) => put_short(style, *n, out)?,
        Item::Mark(mark) => out.push(mark_byte(*mark))?,
        Item::Cases(count) => put_cases(style, *count, out)?,
        Item::Step(step) => put_step(style, step, out)?,
        Item::Cut(var, points) => put_cut(style, *var, points.points(), out)?,
        Item::Leaf(steps) => {
            out.push(3)?;
            put_counted(style, steps.as_slice(), out)?;
        }
        Item::Dead(step) => {
            out.push(4)?;
            put_reference(style, *step, out)?;
        }
        Item::End => put_trailer(style, out)?,
    }
    Ok(())
}

// Appends it, or nothing.
fn write_as(style: Style, item: &Item, out: &mut Vec<u8>) -> Result<(), AllocError>
    requires { HasSpelling item.now }
    ensures ok { OnOk result (out.new.items ≡ out.old.items ++ spell.spelling item.now style) }
    ensures err { OnErr result (out.new.items ≡ out.old.items) }
{
    let start = out.len();
    let written = put_item(style, item, out);
    if written.is_err() {
        out.truncate(start);
    }
    written
}

/// Appends the one spelling of the item in version 1. Nothing is appended where memory isn't found.
pub fn write_item(item: &Item, out: &mut Vec<u8>) -> Result<(), AllocError>
    requires { HasSpelling item.now }
    ensures ok { OnOk result (out.new.items ≡ out.old.items ++ spell.spelling item.now First) }
    ensures err { OnErr result (out.new.items ≡ out.old.items) }
{
    write_as(Style::First, item, out)
}

/// Appends the one spelling that the item has in version 2 behind what was seen. Nothing is
/// appended where memory isn't found.
pub fn write_item2(item: &Item, seen: Seen, out: &mut Vec<u8>) -> Result<(), AllocError>
    requires { HasSpelling item.now }
    ensures ok { OnOk result (out.new.items
        ≡ out.old.items ++ spell.spelling item.now (Second seen)) }
    ensures err { OnErr result (out.new.items ≡ out.old.items) }
{
    write_as(Style::Second(seen), item, out)
}
