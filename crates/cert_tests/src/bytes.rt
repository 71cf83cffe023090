// The worked certificate read and written: whole, cut short, damaged, and from a folder that fails.
ghost use Rattle.std.specs.Prelude.{◌≤◌, length, IfOk};
ghost use Rattle.cert_bytes.specs.Pieces.{AgreesTold};
ghost use Rattle.cert_bytes.specs.Certificates.{HasSpelling};

use crate::equals::{bytes_are, text_is};
use crate::turned::{READ, run_at};
use crate::worked::{WHOLE, edited, folder_of, turned};
use cert_bytes::{Item, Reader, StepRow, Stop, write_item};
use dyadic::{Dyadic, End};
use facts::Fact;
use fx_edge::{Folder, Items};
use fx_model::{ExprId, Node};
use interval::Interval;
use std::alloc::{AllocError, Global};
use std::process::Abort;
use std::test::Fail;

// Writes what is read, up to the end. A read that fails is tried again.
fn copy_items<F: Folder>(folder: &mut F, reader: &mut Reader, out: &mut Vec<u8>) -> Result<(), Stop>
    requires agrees { AgreesTold (F.told folder.old reader.old.ahead.name) reader.old.ahead }
{
    'calls: for _ in 0..1000 {
        match reader.next(folder) {
            Ok(Item::End) => return Ok(()),
            Ok(item) => write_item(&item, out)?,
            Err(Stop::Failed) => {}
            Err(stop) => return Err(stop),
        }
    }
    Err(Stop::Failed)
}

fn stop_text(alloc: Global, stop: Stop) -> Result<String, AllocError> {
    let text = match stop {
        Stop::Fault(fault) => format!(in alloc; "{:?} {}", fault.kind, fault.at)?,
        _ => format!(in alloc; "{stop:?}")?,
    };
    Ok(text)
}

// What comes of reading the bytes: `same` where the items are written as the same bytes, or the
// fault and its byte.
fn read(alloc: Global, bytes: &[u8], failing: &[u64], most: usize) -> Result<String, AllocError>
    requires { 1 ≤ most }
{
    let mut folder = folder_of(alloc, bytes, failing, most)?;
    let mut reader = Reader::new(alloc, "c")?;
    let mut out = Vec::new(alloc);
    if let Err(stop) = copy_items(&mut folder, &mut reader, &mut out) {
        return stop_text(alloc, stop);
    }
    let same = out.as_slice() == bytes;
    String::from_str(alloc, if same { "same" } else { "written otherwise" })
}

// A step that claims these whole bounds of an expression.
fn step(
    rt: &(impl Abort + AllocGlobal),
    rule: u8,
    arg: u16,
    bounds: (ExprId, i64, i64),
    premises: &[u64],
) -> Result<Item, AllocError>
    requires { length premises.now ≤ 65535 }
    ensures { IfOk result HasSpelling }
{
    let low = Dyadic::new(bounds.1, 0).expect(rt, "a whole number");
    let high = Dyadic::new(bounds.2, 0).expect(rt, "a whole number");
    let range = Interval::new(End::At(low), End::At(high)).expect(rt, "ends in order");
    Ok(Item::Step(StepRow {
        rule,
        arg,
        fact: Fact::Bnd(bounds.0, range),
        with: None,
        premises: Items::from_vec(premises.to_vec(rt.alloc())?),
    }))
}

// The head, the nodes and the marks.
fn put_head(out: &mut Vec<u8>) -> Result<(), AllocError> {
    write_item(&Item::Nodes(3), out)?;
    write_item(&Item::Node(Node::Var(0)), out)?;
    write_item(&Item::Node(Node::Var(1)), out)?;
    write_item(&Item::Node(Node::Mul(ExprId(0), ExprId(1))), out)?;
    write_item(&Item::Marks(0), out)
}

fn put_step(
    rt: &(impl Abort + AllocGlobal),
    rule: u8,
    arg: u16,
    bounds: (ExprId, i64, i64),
    premises: &[u64],
    out: &mut Vec<u8>,
) -> Result<(), AllocError>
    requires { length premises.now ≤ 65535 }
{
    write_item(&step(rt, rule, arg, bounds, premises)?, out)
}

fn put_leaf(alloc: Global, out: &mut Vec<u8>) -> Result<(), AllocError> {
    write_item(&Item::Leaf(Items::from_vec([2].to_vec(alloc)?)), out)
}

fn put_whole(rt: &(impl Abort + AllocGlobal), out: &mut Vec<u8>) -> Result<(), AllocError> {
    let (x, y, product) = (ExprId(0), ExprId(1), ExprId(2));
    put_head(out)?;
    put_step(rt, 100, 0, (x, 1, 2), &[], out)?;
    put_step(rt, 100, 1, (y, 3, 5), &[], out)?;
    put_step(rt, 6, 0, (product, 3, 10), &[0, 1], out)?;
    put_leaf(rt.alloc(), out)
}

#[test]
fn items_are_written_as_in_the_table(rt: HostRuntime) -> Result<(), Fail> {
    let mut out = Vec::new(rt.alloc());
    put_whole(&rt, &mut out)?;
    bytes_are(&rt, 0, out.as_slice(), WHOLE.as_slice());
    Ok(())
}

// This comes of reading the bytes, by so many a read at most.
fn is_read(
    rt: &impl Abort,
    alloc: Global,
    bytes: &[u8],
    failing: &[u64],
    most: usize,
    wanted: &str,
) -> Result<(), Fail>
    requires { 1 ≤ most }
{
    let text = read(alloc, bytes, failing, most)?;
    text_is(rt, most, text.as_str(), wanted);
    Ok(())
}

#[test]
fn items_are_read_in_any_pieces(rt: HostRuntime) -> Result<(), Fail> {
    let alloc = rt.alloc();
    let longer = edited(alloc, 143, &[0], 143)?;
    is_read(&rt, alloc, &longer, &[], 7, "TrailingBytes 143")?;
    is_read(&rt, alloc, &WHOLE, &[], 1, "same")?;
    is_read(&rt, alloc, &WHOLE, &[2, 5, 6], 7, "same")
}

#[test]
fn each_front_is_truncated_at_its_length(rt: HostRuntime) -> Result<(), Fail> {
    for length in 0..143usize {
        let wanted = format!(in rt.alloc(); "Truncated {length}")?;
        let front = &WHOLE[..length];
        is_read(&rt, rt.alloc(), front, &[], 1, wanted.as_str())?;
        is_read(&rt, rt.alloc(), front, &[], 7, wanted.as_str())?;
    }
    Ok(())
}

fn bit_is_read(rt: &impl Abort, alloc: Global, bit: usize) -> Result<(), Fail> {
    let bytes = turned(alloc, bit)?;
    let text = read(alloc, bytes.as_slice(), &[], 7)?;
    text_is(rt, bit, text.as_str(), run_at(&READ, bit));
    Ok(())
}

#[test]
fn each_turned_bit_is_read_as_in_the_table(rt: HostRuntime) -> Result<(), Fail> {
    for bit in 0..1144usize {
        bit_is_read(&rt, rt.alloc(), bit)?;
    }
    Ok(())
}
