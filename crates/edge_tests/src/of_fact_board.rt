//! Entries that are published, and read by their tokens.
ghost use Rattle.std.specs.Prelude.{◌≡◌, All, IfOk};

use fact_board::{Board, Token};
use std::alloc::{AllocError, Global};
use std::sync::Wait;
use std::test::Fail;
use std::thread::{Threads, map_vec};

// Other threads read the entries of the tokens.
fn read_all<R: Threads + Sync>(
    rt: &R,
    board: &Board<u32>,
    tokens: Vec<Token<u32>>,
) -> Result<Vec<u32>, AllocError>
    requires { All (λ t. t.board ≡ board.now) tokens.items }
{
    map_vec(
        rt,
        tokens,
        &|token: Token<u32>| -> u32
            requires { token.board ≡ board.now }
            ensures { result ≡ token.entry }
        { *board.read(&token) },
    )
}

// Publishes the numbers below `count`, and keeps a second token of each.
fn publish_all<R: Wait>(
    rt: &R,
    alloc: Global,
    board: &Board<u32>,
    count: u32,
) -> Result<Vec<Token<u32>>, AllocError>
    ensures { IfOk result (λ v. All (λ t. t.board ≡ board.now) v.items) }
{
    let mut tokens = Vec::new(alloc);
    for entry in 0..count {
        let Ok(token) = board.publish(rt, entry) else {
            return Err(AllocError);
        };
        tokens.push(board.again(&token)?)?;
    }
    Ok(tokens)
}

#[test]
fn other_threads_read_what_was_published(rt: HostRuntime) -> Result<(), Fail> {
    let board = Board::new(rt.alloc())?;
    let tokens = publish_all(&rt, rt.alloc(), &board, 20)?;
    let found = read_all(&rt, &board, tokens)?;
    assert_eq!(rt; found.len(), 20);
    for entry in 0..20usize {
        assert_eq!(rt; found.get(entry), Some(&(entry as u32)), "at {entry}");
    }
    Ok(())
}

// Publishes an entry, and reads it and an earlier one. `None` where it is refused.
fn published<R: Wait>(
    rt: &R,
    board: &Board<u32>,
    first: &Token<u32>,
    entry: u32,
) -> Option<(u32, u32)>
    requires { first.now.board ≡ board.now }
{
    match board.publish(rt, entry) {
        Ok(token) => Some((*board.read(&token), *board.read(first))),
        Err(_) => None,
    }
}

#[test]
fn with_memory_no_entry_is_refused(rt: HostRuntime) -> Result<(), Fail> {
    let board = Board::new(rt.alloc())?;
    let shared = &board;
    let Ok(first) = shared.publish(&rt, 1000) else {
        return Err(Fail::new("the first entry is refused"));
    };
    for entry in 0..100u32 {
        assert_eq!(rt; published(&rt, shared, &first, entry), Some((entry, 1000)));
    }
    Ok(())
}
