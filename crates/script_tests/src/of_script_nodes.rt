//! Nodes of definitions, worked out by hand.

ghost use Rattle.std.specs.Prelude.{◌<◌, ◌^◌, length};

use crate::equals::{all_equal, equal};
use fx_model::{Direction, ExprId, Literal, Node, Rounding};
use script_nodes::definitions::{Definitions, definitions_of};
use script_shape::shape::shape_of;
use script_words::words::read_words;
use std::alloc::Global;
use std::process::Abort;
use std::test::Fail;

fn read<'a>(alloc: Global, text: &'a [u8]) -> Result<Definitions<'a>, Fail>
    requires { length text.now < 2 ^ 32 }
{
    let read = read_words(alloc, text)?;
    let shape = shape_of(alloc, read.list())?;
    let definitions = definitions_of(alloc, read.list(), shape.roles.as_slice())?;
    Ok(definitions)
}

fn nodes(alloc: Global, text: &[u8]) -> Result<Vec<Node>, Fail>
    requires { length text.now < 2 ^ 32 }
{
    let definitions = read(alloc, text)?;
    let dag = definitions.reader().dag();
    let mut nodes = Vec::new(alloc);
    for number in 0..dag.len() {
        nodes.push(dag.node(ExprId(number)))?;
    }
    Ok(nodes)
}

fn lit(num: u128, two: i32, ten: i32) -> Node {
    Node::Lit(Literal { num, two, ten })
}

fn round(lsb: i16, dir: Direction, x: u16) -> Node {
    Node::Round(Rounding { lsb, dir }, ExprId(x))
}

fn mul(x: u16, y: u16) -> Node {
    Node::Mul(ExprId(x), ExprId(y))
}

fn add(x: u16, y: u16) -> Node {
    Node::Add(ExprId(x), ExprId(y))
}

fn sub(x: u16, y: u16) -> Node {
    Node::Sub(ExprId(x), ExprId(y))
}

fn div(x: u16, y: u16) -> Node {
    Node::Div(ExprId(x), ExprId(y))
}

fn nodes_are(rt: &impl Abort, alloc: Global, text: &[u8], wanted: &[Node]) -> Result<(), Fail> {
    assert!(rt; text.len() < 1000);
    let found = nodes(alloc, text)?;
    all_equal(rt, text, found.as_slice(), wanted);
    Ok(())
}

#[test]
fn nodes_stand_in_the_order_of_reading(rt: HostRuntime) -> Result<(), Fail> {
    let x = Node::Var(0);
    let y = Node::Var(1);
    let rows: [(&[u8], &[Node]); 7] = [
        (b"z = x*y - x*x;", &[x, y, mul(0, 1), mul(0, 0), sub(2, 3)]),
        (b"z = x - x - x;", &[x, sub(0, 0), sub(1, 0)]),
        (
            b"z = 0.5 + 0.50 * 1b-1;",
            &[lit(5, 0, -1), lit(1, -1, 0), mul(0, 1), add(0, 2)],
        ),
        (
            b"z = x - -y * (x + 3) / |y|;",
            &[
                x,
                y,
                Node::Neg(ExprId(1)),
                lit(3, 0, 0),
                add(0, 3),
                mul(2, 4),
                Node::Abs(ExprId(1)),
                div(5, 6),
                sub(0, 7),
            ],
        ),
        (
            b"z = --|x|;",
            &[
                x,
                Node::Abs(ExprId(0)),
                Node::Neg(ExprId(1)),
                Node::Neg(ExprId(2)),
            ],
        ),
        (b"y = x; z = y + w;", &[x, y, add(0, 1)]),
        (b"z = x / y; { x in ? }", &[x, y, div(0, 1)]),
    ];
    for (text, wanted) in &rows {
        nodes_are(&rt, rt.alloc(), *text, *wanted)?;
    }
    Ok(())
}

#[test]
fn roundings_have_their_nodes(rt: HostRuntime) -> Result<(), Fail> {
    let x = Node::Var(0);
    let y = Node::Var(1);
    let rows: [(&[u8], &[Node]); 4] = [
        (
            b"y fixed<-4,dn>= x*x + 1/3;",
            &[
                x,
                mul(0, 0),
                round(-4, Direction::Dn, 1),
                lit(1, 0, 0),
                lit(3, 0, 0),
                div(3, 4),
                round(-4, Direction::Dn, 5),
                add(2, 6),
                round(-4, Direction::Dn, 7),
            ],
        ),
        (
            b"@q = int<zr>; z q= fma(x, y, q(x) - 1);",
            &[
                x,
                y,
                round(0, Direction::Zr, 0),
                lit(1, 0, 0),
                sub(2, 3),
                round(0, Direction::Zr, 4),
                mul(0, 1),
                add(6, 5),
                round(0, Direction::Zr, 7),
            ],
        ),
        (
            b"z = fixed<-012,up>(int<na>(x)); w int<od> = z - x;",
            &[
                x,
                round(0, Direction::Na, 0),
                round(-12, Direction::Up, 1),
                sub(2, 0),
                round(0, Direction::Od, 3),
            ],
        ),
        (
            b"@q = fixed<999999999999999999999999,nu>; z = -q(x);",
            &[x, round(512, Direction::Nu, 0), Node::Neg(ExprId(1))],
        ),
    ];
    for (text, wanted) in &rows {
        nodes_are(&rt, rt.alloc(), *text, *wanted)?;
    }
    Ok(())
}

#[test]
fn names_have_their_nodes_and_operators(rt: HostRuntime) -> Result<(), Fail> {
    let definitions = read(rt.alloc(), b"@q = int<up>; y = x; z q= y * y;")?;
    let reader = definitions.reader();
    equal(&rt, b"y", reader.value(b"y".as_slice()), Some(ExprId(0)));
    equal(&rt, b"z", reader.value(b"z".as_slice()), Some(ExprId(2)));
    equal(&rt, b"x", reader.value(b"x".as_slice()), None);
    let rounding = Rounding {
        lsb: 0,
        dir: Direction::Up,
    };
    equal(&rt, b"q", reader.operator(b"q".as_slice()), rounding);
    equal(&rt, b"variables", reader.variables().len(), 1);
    Ok(())
}
