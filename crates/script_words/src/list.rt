//! The words of a text, kept by class and place. Each is made when it is asked for.

ghost use Rattle.std.specs.Prelude.{◌≡◌, ◌≤◌, ◌<◌, ◌+◌, [], ◌∷◌, All, length, take, drop};
ghost use Rattle.std.specs.Prelude.{slice_get, slice_index_or, MatchOption, IfSome, IfOk};
ghost use Rattle.std.specs.Option.{option_map};
ghost use Rattle.script_words.specs.Placed as spec;
ghost use Rattle.script_words.specs.Placed.{IsPlacedIn};
ghost use Rattle.script_words.specs.Words.{Word as SpecWord, class_of};
ghost use Rattle.script_words.specs.Named.{word_of};

use crate::class::Class;
use crate::lex::{Token, TokenKind};
use crate::words::Word;
use std::alloc::{AllocError, Global};

/// The class of a word, and its place in the text.
#[derive(Clone, Copy)]
pub struct PlacedWord {
    pub class: Class,
    pub start: u32,
    pub end: u32,
}

/// Words of a text one behind the other, each of which is made when it is asked for.
#[derive(Clone, Copy)]
pub struct WordList<'w, 'a> {
    text: &'a [u8],
    placed: &'w [PlacedWord],
    ghost within: { All (IsPlacedIn text.now) placed.now },
}

/// The words of a text up to the first byte that begins no token.
#[derive(Drop)]
pub struct Words<'a> {
    pub(crate) text: &'a [u8],
    pub(crate) placed: Vec<PlacedWord>,
    pub bad: Option<u32>,
    ghost within: { All (IsPlacedIn text.now) placed.items },
}

#[inline]
fn word_with<'a>(class: Class, text: &'a [u8]) -> Word<'a>
    ensures { word_of result ≡ spec.word_with class text.now }
{
    match class {
        Class::Name(spelled) => Word::Name(spelled, text),
        Class::Rounding(spelled) => Word::Rounding(spelled, text),
        Class::Literal(number) => Word::Literal(number, text),
        Class::Sign(sign) => Word::Sign(sign),
    }
}

#[inline]
fn word_at<'a>(text: &'a [u8], placed: PlacedWord) -> Word<'a>
    requires { IsPlacedIn text.now placed }
    ensures { word_of result ≡ spec.word_at text.now placed }
{
    word_with(
        placed.class,
        &text[placed.start as usize..placed.end as usize],
    )
}

fn kind_of(class: Class) -> TokenKind
    ensures { result ≡ spec.kind_of class }
{
    match class {
        Class::Name(_) | Class::Rounding(_) => TokenKind::Name,
        Class::Literal(_) => TokenKind::Literal,
        Class::Sign(sign) => TokenKind::Sign(sign),
    }
}

fn token_of(placed: PlacedWord) -> Token
    ensures { result ≡ spec.token_of placed }
{
    Token {
        kind: kind_of(placed.class),
        start: placed.start,
        end: placed.end,
    }
}

impl<'w, 'a> WordList<'w, 'a> {
    ghost use Rattle.script_words.specs.Kept.{words_in, tokens_in};

    /// How many words there are.
    #[inline]
    pub fn len(self) -> usize
        ensures { result ≡ length (words_in self.entry) }
    {
        self.placed.len()
    }

    /// The class of a word, by its number.
    #[inline]
    pub fn class_at(self, number: usize) -> Class
        requires { number < length (words_in self) }
        ensures { (d : SpecWord)
            → class_of (slice_index_or (words_in self.entry) number d) ≡ result }
    {
        self.placed[number].class
    }

    /// A word, by its number.
    #[inline]
    pub fn at(self, number: usize) -> Word<'a>
        requires { number < length (words_in self) }
        ensures { drop number (words_in self.entry)
            ≡ word_of result ∷ drop (number + 1) (words_in self.entry) }
    {
        word_at(self.text, self.placed[number])
    }

    /// The word of a number, where there is one.
    #[inline]
    pub fn get(self, number: usize) -> Option<Word<'a>>
        ensures { option_map word_of result ≡ slice_get (words_in self.entry) number }
    {
        if number < self.placed.len() {
            Some(word_at(self.text, self.placed[number]))
        } else {
            None
        }
    }

    /// The first word, and those behind it.
    #[inline]
    pub fn split_first(self) -> Option<(Word<'a>, WordList<'w, 'a>)>
        ensures words { MatchOption result (words_in self.entry ≡ [])
            (λ p. words_in self.entry ≡ word_of p.0 ∷ words_in p.1) }
        ensures tokens { IfSome result (λ p. tokens_in p.1 ≡ drop 1 (tokens_in self.entry)) }
    {
        let [first, placed @ ..] = self.placed else {
            return None;
        };
        Some((
            word_at(self.text, *first),
            WordList {
                text: self.text,
                placed,
            },
        ))
    }

    /// So many words from the front.
    #[inline]
    pub fn front(self, count: usize) -> WordList<'w, 'a>
        requires { count ≤ length (words_in self) }
        ensures words { words_in result ≡ take count (words_in self.entry) }
        ensures tokens { tokens_in result ≡ take count (tokens_in self.entry) }
    {
        WordList {
            text: self.text,
            placed: &self.placed[..count],
        }
    }

    /// The words from this number on.
    #[inline]
    pub fn from(self, number: usize) -> WordList<'w, 'a>
        requires { number ≤ length (words_in self) }
        ensures words { words_in result ≡ drop number (words_in self.entry) }
        ensures tokens { tokens_in result ≡ drop number (tokens_in self.entry) }
    {
        WordList {
            text: self.text,
            placed: &self.placed[number..],
        }
    }

    /// The token of a word, where there is one of this number.
    pub fn token(self, number: usize) -> Option<Token>
        ensures { result ≡ slice_get (tokens_in self.entry) number }
    {
        if number < self.placed.len() {
            Some(token_of(self.placed[number]))
        } else {
            None
        }
    }

    /// The tokens of the words. `Err` only where memory runs out.
    pub fn tokens(self, alloc: Global) -> Result<Vec<Token>, AllocError>
        ensures { IfOk result (λ tokens. tokens.items ≡ tokens_in self.entry) }
    {
        let words = self.placed;
        let mut tokens = Vec::with_capacity(alloc, words.len())?;
        for placed in words {
            tokens.push(token_of(*placed))?;
        }
        Ok(tokens)
    }
}

impl<'a> Words<'a> {
    ghost use Rattle.script_words.specs.Kept.{words_in, tokens_in, all_words, all_tokens};

    /// The words.
    #[inline]
    pub fn list(&self) -> WordList<'_, 'a>
        ensures words { words_in result ≡ all_words self.now }
        ensures tokens { tokens_in result ≡ all_tokens self.now }
    {
        WordList {
            text: self.text,
            placed: self.placed.as_slice(),
        }
    }
}
