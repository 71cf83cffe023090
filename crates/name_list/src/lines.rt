//! The lines of a list.
ghost use Rattle.std.specs.Prelude.{◌≡◌, ◌≤◌, ◌<◌, ◌==◌, ◌^◌, length};
ghost use Rattle.std.specs.List.{position_or_len, after_first};
ghost use Rattle.name_list.specs.Lists.{is_feed, lines_of, line_fault};

use crate::fault::{ListFault, ListKind};

// How many bytes stand before the first line feed, or in all.
fn line_len(text: &[u8]) -> usize
    ensures is { result ≡ position_or_len is_feed text.now }
    ensures short { result ≤ length text.now }
{
    for (i, byte) in text.iter().enumerate() {
        if *byte == b'\n' {
            return i;
        }
    }
    text.len()
}

// What stands behind the first line.
fn later_lines(text: &[u8]) -> &[u8]
    ensures { result.now ≡ after_first is_feed text.now }
{
    let len = line_len(text);
    if len < text.len() {
        &text[len + 1..]
    } else {
        &text[len..]
    }
}

/// The first line without bytes, or the 65th.
pub(crate) fn line_fault(text: &[u8]) -> Option<ListFault>
    requires { length text.now < 2 ^ 32 }
    ensures { result ≡ line_fault 0 0 (lines_of text.now) }
{
    let mut rest = text;
    let mut at: usize = 0;
    let mut count: u8 = 0;
    while rest.len() > 0 {
        let len = line_len(rest);
        if len == 0 {
            return Some(ListFault {
                kind: ListKind::EmptyName,
                at: at as u32,
            });
        }
        if count == 64 {
            return Some(ListFault {
                kind: ListKind::Limit,
                at: at as u32,
            });
        }
        count += 1;
        at += len + 1;
        rest = later_lines(rest);
    }
    None
}
