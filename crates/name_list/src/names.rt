//! The names of a list.
ghost use Rattle.std.specs.Prelude.{◌≡◌, ◌≤◌, ◌<◌, ◌^◌, length, map, string_bytes, vec_len, Some};
ghost use Rattle.std.specs.Prelude.{None, IfOk, OnOk, IfErr};
ghost use Rattle.name_list.specs.declared.fault.ListStop.TheVariants as stop;
ghost use Rattle.name_list.specs.declared.fault.ListFault.{ListFault};
ghost use Rattle.name_list.specs.Order.{earlier};
ghost use Rattle.name_list.specs.Lists.{IsFaultOf, empty_fault, lines_of, long_fault, plain_fault};

use crate::fault::{ListFault, ListKind, ListStop, earlier};
use crate::lines::line_fault;
use std::alloc::{AllocError, Global};

/// The most bytes of a list.
const MOST_BYTES: usize = 1 << 16;

// More bytes than a list may have.
fn long_fault(text: &[u8]) -> Option<ListFault>
    ensures { result ≡ long_fault text.now }
{
    if text.len() > MOST_BYTES {
        return Some(ListFault {
            kind: ListKind::Limit,
            at: MOST_BYTES as u32,
        });
    }
    None
}

// No bytes at all.
fn empty_fault(text: &[u8]) -> Option<ListFault>
    ensures { result ≡ empty_fault text.now }
{
    match text {
        [] => Some(ListFault {
            kind: ListKind::EmptyName,
            at: 0,
        }),
        _ => None,
    }
}

// The faults that have nothing to do with the encoding.
fn plain_fault(text: &[u8]) -> Option<ListFault>
    requires { length text.now < 2 ^ 32 }
    ensures { result ≡ plain_fault text.now }
{
    earlier(
        empty_fault(text),
        earlier(line_fault(text), long_fault(text)),
    )
}

// The names of a text.
fn names_of(alloc: Global, text: &str) -> Result<Vec<String>, AllocError>
    ensures { IfOk result (λ names. map string_bytes names.items ≡ lines_of text.now) }
{
    let mut names = Vec::new(alloc);
    let mut rest = text;
    while let Some((name, later)) = rest.split_once('\n') {
        let owned = String::from_str(alloc, name)?;
        names.push(owned)?;
        rest = later;
    }
    if rest.len() == 0 {
        return Ok(names);
    }
    let last = String::from_str(alloc, rest)?;
    names.push(last)?;
    Ok(names)
}

/// The names of a list, one a line, or its first fault: at the lowest byte, and there of the lowest
/// number. The list has fewer than 2^32 bytes.
pub fn read_list(alloc: Global, text: &[u8]) -> Result<Vec<String>, ListStop>
    requires { length text.now < 2 ^ 32 }
    ensures sound { OnOk result (IsFaultOf text.now None) }
    ensures names { IfOk result (λ names. map string_bytes names.items ≡ lines_of text.now) }
    ensures few { IfOk result (λ names. (1 ≤ vec_len names) × (vec_len names ≤ 64)) }
    ensures fault { IfErr result (λ e.
        (f : ListFault) → e ≡ stop.Fault f → IsFaultOf text.now (Some f)) }
{
    let fault = plain_fault(text);
    match std::str::from_utf8(text) {
        Ok(shown) => match fault {
            Some(fault) => Err(ListStop::Fault(fault)),
            None => Ok(names_of(alloc, shown)?),
        },
        Err(error) => {
            let ill = ListFault {
                kind: ListKind::NotText,
                at: error.valid_up_to() as u32,
            };
            match earlier(Some(ill), fault) {
                Some(fault) => Err(ListStop::Fault(fault)),
                None => unreachable!(),
            }
        }
    }
}
