//! The spans of goals, read word by word.

ghost use Rattle.std.specs.Prelude.{◌≡◌, ◌+◌, ◌<◌, ◌^◌, IfOk, OnOk, OnErr};
ghost use Rattle.script_words.specs.Named.{word_of};
ghost use Rattle.script_words.specs.Kept.{words_in};
ghost use Rattle.script_shape.specs.Roles.{leaves_of};
ghost use Rattle.goal_spans.specs.Reading as spec;

use crate::span::Span;
use script_shape::due::Due;
use script_words::class::Symbol;
use script_words::list::WordList;
use script_words::words::Word;
use std::alloc::{AllocError, Global};
use std::marker::Model;

// Where the reading stands.
#[derive(Clone, Copy)]
enum Stage {
    Definitions,
    Formula,
    // Behind the formula.
    Hints,
}

// The word in hand, and the spans so far.
#[derive(Drop)]
struct SpanReader {
    stage: Stage,
    // The number of the word in hand.
    at: usize,
    // Where the proposition in hand began, and where its expression part ended.
    first: usize,
    end: usize,
    spans: Vec<Span>,
}

impl Model for SpanReader {
    ghost use Rattle.goal_spans.specs.Reading.{State};

    ghost Value = { State };

    ghost view = { λ r. record {
      stage = r.stage;
      at = r.at;
      first = r.first;
      end = r.end;
      spans = r.spans.items;
    } };
}

impl SpanReader {
    // No words were read. It takes no memory.
    fn new(alloc: Global) -> SpanReader
        ensures { result ≡ spec.start }
    {
        SpanReader {
            stage: Stage::Definitions,
            at: 0,
            first: 0,
            end: 0,
            spans: Vec::new(alloc),
        }
    }

    // A proposition begins behind the word in hand.
    fn begin(&mut self)
        requires { self.old.at + 1 < 2 ^ 64 }
        ensures { self.new ≡ spec.begun self.old }
    {
        self.first = self.at + 1;
        self.end = self.first;
    }

    // The proposition in hand is one more goal.
    fn add(&mut self) -> Result<(), AllocError>
        ensures added { OnOk result (self.new ≡ spec.with_goal self.old) }
        ensures refused { OnErr result (self.new ≡ self.old) }
    {
        self.spans.push(Span {
            first: self.first,
            end: self.end,
        })?;
        Ok(())
    }

    // Takes a word before the formula.
    fn open(&mut self, role: Due, word: Word<'_>)
        requires { self.old.at + 1 < 2 ^ 64 }
        ensures { self.new ≡ spec.opened role (word_of word.entry) self.old }
    {
        if matches!((role, word), (Due::Script, Word::Sign(Symbol::OpenBrace))) {
            self.stage = Stage::Formula;
            self.begin();
        }
    }

    // Takes the sign behind the first expression of a proposition.
    fn relate(&mut self, word: Word<'_>)
        ensures { self.new ≡ spec.related (word_of word.entry) self.old }
    {
        if !matches!(word, Word::Sign(Symbol::Against)) {
            self.end = self.at;
        }
    }

    // Takes the sign behind a proposition.
    fn connect(&mut self, word: Word<'_>) -> Result<(), AllocError>
        requires { self.old.at + 1 < 2 ^ 64 }
        ensures connected { OnOk result (self.new ≡ spec.connected (word_of word.entry) self.old) }
        ensures refused { OnErr result (self.new ≡ self.old) }
    {
        if matches!(word, Word::Sign(Symbol::Arrow)) {
            self.spans.clear();
            self.begin();
            return Ok(());
        }
        self.add()?;
        self.begin();
        Ok(())
    }

    // Takes the brace behind the formula.
    fn close(&mut self) -> Result<(), AllocError>
        ensures closed { OnOk result (self.new ≡ spec.closed self.old) }
        ensures refused { OnErr result (self.new ≡ self.old) }
    {
        self.add()?;
        self.stage = Stage::Hints;
        Ok(())
    }

    // Takes a word of the formula, or the brace behind it, by its role.
    fn within(&mut self, role: Due, word: Word<'_>) -> Result<(), AllocError>
        requires { self.old.at + 1 < 2 ^ 64 }
        ensures read { OnOk result (self.new ≡ spec.in_formula role (word_of word.entry) self.old) }
        ensures refused { OnErr result (self.new ≡ self.old) }
    {
        match role {
            Due::Relation => self.relate(word),
            Due::In => self.end = self.at,
            Due::Claim => self.begin(),
            Due::Connective => return self.connect(word),
            Due::CloseBrace => return self.close(),
            _ => {}
        }
        Ok(())
    }

    // Takes a word by its role. Where memory runs out it is as it was.
    #[tactic(auto, unfolding(crate::specs::Reading::read_word))]
    fn token(&mut self, role: Due, word: Word<'_>) -> Result<(), AllocError>
        requires { self.old.at + 1 < 2 ^ 64 }
        ensures read { OnOk result (self.new ≡ spec.read_word role (word_of word.entry) self.old) }
        ensures counted { OnOk result (self.new.at ≡ self.old.at + 1) }
        ensures refused { OnErr result (self.new ≡ self.old) }
    {
        let later = self.at + 1;
        match self.stage {
            Stage::Definitions => self.open(role, word),
            Stage::Formula => self.within(role, word)?,
            Stage::Hints => {}
        }
        self.at = later;
        Ok(())
    }

    // The spans so far.
    fn into_spans(self) -> Vec<Span>
        ensures { result.items ≡ self.spans }
    {
        self.spans
    }
}

/// Which words are the expression part of each goal: of a script's words with their roles, those of
/// `goal_spans` of its tree (`spans_are_read`). `Err` only where memory runs out.
#[tactic(auto, unfolding(crate::specs::Reading::read_leaves))]
pub fn goal_spans(
    alloc: Global,
    words: WordList<'_, '_>,
    roles: &[Due],
) -> Result<Vec<Span>, AllocError>
    ensures { IfOk result (λ spans. spans.items
        ≡ spec.spans_read (leaves_of roles.now (words_in words.entry))) }
{
    let mut reader = SpanReader::new(alloc);
    let mut words = words;
    let mut roles = roles;
    while let [role, later_roles @ ..] = roles {
        let Some((word, later_words)) = words.split_first() else {
            return Ok(reader.into_spans());
        };
        reader.token(*role, word)?;
        words = later_words;
        roles = later_roles;
    }
    Ok(reader.into_spans())
}
