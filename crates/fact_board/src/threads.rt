//! Which types go to other threads, and which are shared there, for every entry type. Each function
//! is the proof of its line.
use crate::{Board, Token};

fn sends<X: Send>(value: &X) {
    let _ = value;
}

fn shares<X: Sync>(value: &X) {
    let _ = value;
}

// A board is sent where entries are sent.
fn board_is_sent<E: Drop + Send>(board: &Board<E>) {
    sends(board);
}

// A board is shared where entries are sent and shared.
fn board_is_shared<E: Drop + Send + Sync>(board: &Board<E>) {
    shares(board);
}

// A token is sent where entries are sent and shared.
fn token_is_sent<E: Drop + Send + Sync>(token: &Token<E>) {
    sends(token);
}

// So is it shared.
fn token_is_shared<E: Drop + Send + Sync>(token: &Token<E>) {
    shares(token);
}
