//! The head of a certificate.
ghost use Rattle.std.specs.Prelude.{◌≡◌, ◌++◌, ◌≤◌, length, map, OnOk};
ghost use Rattle.cert_bytes.specs.declared.item.Item.TheVariants as item;
ghost use Rattle.cert_bytes.specs.Certificates.{HasSpelling};
ghost use Rattle.cert_bytes.specs.Styles.{none_seen};
ghost use Rattle.cert_bytes.specs.Spelling.{spelling_of, certificate_of};
ghost use Rattle.tree_certificates.specs.Roots.{cases_items};
ghost use Rattle.cert_writer.specs.Heads.{head_items};

use cert_bytes::{Item, Seen, write_item2};
use expr_dag::Dag;
use facts::HintMark;
use fx_model::ExprId;
use std::alloc::AllocError;

// Appends an item that stands before the first step and before the end of the first section.
fn put(item: &Item, out: &mut Vec<u8>) -> Result<(), AllocError>
    requires { HasSpelling item.now }
    ensures { OnOk result (out.new.items ≡ out.old.items ++ spelling_of none_seen item.now) }
{
    write_item2(item, Seen::none(), out)
}

// Appends the nodes.
fn spell_nodes(nodes: &Dag, out: &mut Vec<u8>) -> Result<(), AllocError>
    ensures { OnOk result (out.new.items
        ≡ out.old.items ++ certificate_of (map item.Node nodes.now)) }
{
    nodes.laws();
    for k in 0..nodes.len() {
        put(&Item::Node(nodes.node(ExprId(k))), out)?;
    }
    Ok(())
}

// Appends the marks.
fn spell_marks(marks: &[HintMark], out: &mut Vec<u8>) -> Result<(), AllocError>
    ensures { OnOk result (out.new.items
        ≡ out.old.items ++ certificate_of (map item.Mark marks.now)) }
{
    for mark in marks {
        put(&Item::Mark(*mark), out)?;
    }
    Ok(())
}

// Appends how many cases there are, where there are several.
fn spell_cases(count: usize, out: &mut Vec<u8>) -> Result<(), AllocError>
    requires { count ≤ 64 }
    ensures { OnOk result (out.new.items ≡ out.old.items ++ certificate_of (cases_items count)) }
{
    if count >= 2 {
        put(&Item::Cases(count as u8), out)?;
    }
    Ok(())
}

// Appends what stands before the root sections: the nodes and the marks, each behind their count,
// and how many cases there are, where there are several. `Err` only where memory runs out; a front
// of that may then be there.
pub(crate) fn spell_head(
    nodes: &Dag,
    marks: &[HintMark],
    cases: usize,
    out: &mut Vec<u8>,
) -> Result<(), AllocError>
    requires few { length marks.now ≤ 65535 }
    requires cases { cases ≤ 64 }
    ensures { OnOk result (out.new.items
        ≡ out.old.items ++ certificate_of (head_items nodes.now marks.now cases)) }
{
    put(&Item::Nodes(nodes.len()), out)?;
    spell_nodes(nodes, out)?;
    put(&Item::Marks(marks.len() as u16), out)?;
    spell_marks(marks, out)?;
    spell_cases(cases, out)?;
    Ok(())
}
