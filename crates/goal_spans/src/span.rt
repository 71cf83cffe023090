//! Words that follow one another.

/// Words from `first` up to, not with, `end`, counted from 0.
#[derive(Clone, Copy, PartialEq, Eq, Debug)]
pub struct Span {
    pub first: usize,
    pub end: usize,
}
