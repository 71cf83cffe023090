//! Hints, read word by word from the left.

ghost use Rattle.std.specs.Prelude.{◌≡◌, ◌<◌, length, All, Err, IfOk, IfErr, OnOk};
ghost use Rattle.script_words.specs.Named.{word_of};
ghost use Rattle.script_nodes.specs.Known as spec_known;
ghost use Rattle.script_hints.specs.Drafts as spec_drafts;
ghost use Rattle.script_hints.specs.Hints as spec_hints;
ghost use Rattle.script_hints.specs.Needs.{HasNormalBounds};
ghost use Rattle.script_hints.specs.Reading as spec;

use crate::draft::HintDraft;
use crate::hint::HintList;
use expr_dag::DagFault;
use fx_model::ExprId;
use literal_order::Written;
use script_nodes::digits::{literal_of, number_of};
use script_nodes::reader::NodeReader;
use script_shape::due::Due;
use script_words::class::Symbol;
use script_words::words::Word;
use std::alloc::Global;
use std::marker::Model;

/// The expression that is being read, the hint, and what the hints before it say. After an `Err` it
/// says nothing.
#[derive(Drop)]
pub struct HintReader<'a> {
    reader: NodeReader<'a>,
    draft: HintDraft,
}

impl<'a> Model for HintReader<'a> {
    ghost use Rattle.script_hints.specs.Reading.{HintReading};

    ghost Value = { HintReading };

    ghost view = { λ h. record { reading = h.reader; draft = h.draft } };
}

/// The number of the expression that ends here.
fn end(reader: &mut NodeReader<'_>) -> Result<ExprId, DagFault>
    ensures ended { IfOk result (λ x. spec.ended reader.old ≡ (reader.new, x)) }
    ensures full { result ≡ Err DagFault.Full
        → 1024 < length (spec.ended reader.old).0.known.nodes }
{
    match reader.expression(None)? {
        Some(expression) => Ok(expression),
        None => Ok(ExprId(0)),
    }
}

/// The number of a name's node: that of its value, or a variable's.
#[tactic(auto, unfolding(script_nodes::specs::Known::named))]
fn named<'a>(reader: &mut NodeReader<'a>, name: &'a [u8]) -> Result<ExprId, DagFault>
    ensures put { IfOk result
        (λ x. (reader.new.known, x) ≡ spec_known.named reader.old.known name.now) }
    ensures waits { reader.new.waits ≡ reader.old.waits }
    ensures full { result ≡ Err DagFault.Full
        → 1024 < length (spec_known.named reader.old.known name.now).0.nodes }
{
    match reader.value(name) {
        Some(value) => Ok(value),
        None => reader.variable(name),
    }
}

impl<'a> HintReader<'a> {
    /// Before the first hint, behind what the reader has read. It takes no memory.
    pub fn new(alloc: Global, reader: NodeReader<'a>) -> HintReader<'a>
        ensures { result
            ≡ record { reading = reader.entry; draft = spec_drafts.fresh spec_hints.no_hints } }
    {
        HintReader {
            reader,
            draft: HintDraft::new(alloc),
        }
    }

    /// What is known behind the hints, and what they say.
    pub fn into_parts(self) -> (NodeReader<'a>, HintList)
        ensures parts { result ≡ (self.entry.reading, self.entry.draft.list) }
        ensures normal { All HasNormalBounds result.1.rewrites }
    {
        let HintReader { reader, draft } = self;
        (reader, draft.into_list())
    }

    /// The word behind an expression at the front of a hint.
    fn end_side(&mut self, word: Word<'a>) -> Result<(), DagFault>
        ensures reading { OnOk result
            (self.new ≡ spec.then_draft (spec.by_sign spec_drafts.side_ended (word_of word.entry))
            self.old.draft (spec.ended self.old.reading)) }
        ensures full { result ≡ Err DagFault.Full
            → 1024 < length (spec.ended self.old.reading).0.known.nodes }
    {
        let side = end(&mut self.reader)?;
        if let Word::Sign(sign) = word {
            self.draft.end_side(sign, side);
        }
        Ok(())
    }

    /// The `{` of constraints.
    fn open_needs(&mut self) -> Result<(), DagFault>
        ensures reading { OnOk result (self.new
            ≡ spec.then_draft spec_drafts.needs_opened self.old.draft
            (spec.ended self.old.reading)) }
        ensures full { result ≡ Err DagFault.Full
            → 1024 < length (spec.ended self.old.reading).0.known.nodes }
    {
        let right = end(&mut self.reader)?;
        self.draft.open_needs(right);
        Ok(())
    }

    /// The word behind the expression of a constraint.
    fn relate(&mut self, word: Word<'a>) -> Result<(), DagFault>
        ensures reading { OnOk result
            (self.new ≡ spec.then_draft (spec.by_sign spec_drafts.related (word_of word.entry))
            self.old.draft (spec.ended self.old.reading)) }
        ensures full { result ≡ Err DagFault.Full
            → 1024 < length (spec.ended self.old.reading).0.known.nodes }
    {
        let side = end(&mut self.reader)?;
        let Word::Sign(sign) = word else {
            return Ok(());
        };
        let Ok(()) = self.draft.relate(sign, side) else {
            return Err(DagFault::OutOfMemory);
        };
        Ok(())
    }

    /// The `;` behind a hint.
    fn end_hint(&mut self) -> Result<(), DagFault>
        ensures reading { OnOk result (self.new
            ≡ spec.then_draft spec_drafts.hint_ended self.old.draft (spec.ended self.old.reading)) }
        ensures full { result ≡ Err DagFault.Full
            → 1024 < length (spec.ended self.old.reading).0.known.nodes }
    {
        let last = end(&mut self.reader)?;
        let Ok(()) = self.draft.end(last) else {
            return Err(DagFault::OutOfMemory);
        };
        Ok(())
    }

    /// A word of a bound.
    fn bound(&mut self, word: Word<'a>) -> Result<(), DagFault>
        ensures reading { OnOk result
            (self.new ≡ spec.drafted (spec.bound_word (word_of word.entry)) self.old) }
        ensures memory { IfErr result (λ fault. fault ≡ DagFault.OutOfMemory) }
    {
        match word {
            Word::Literal(_, text) => {
                let bound = Written {
                    literal: literal_of(text),
                    negative: self.draft.is_negative(),
                };
                let Ok(()) = self.draft.bound(bound) else {
                    return Err(DagFault::OutOfMemory);
                };
            }
            Word::Sign(sign) => self.draft.sign_bound(sign),
            _ => {}
        }
        Ok(())
    }

    /// A word of a cut.
    fn cut(&mut self, word: Word<'a>)
        ensures { self.new ≡ spec.drafted (spec.cut_word (word_of word.entry)) self.old }
    {
        match word {
            Word::Literal(_, text) => self.draft.cut_into(number_of(text)),
            Word::Sign(Symbol::OpenParen) => self.draft.begin_points(),
            _ => {}
        }
    }

    /// The name of a variable of a split.
    fn name(&mut self, word: Word<'a>) -> Result<(), DagFault>
        ensures reading { OnOk result
            (self.new ≡ spec.variable_word (word_of word.entry) self.old) }
        ensures full { result ≡ Err DagFault.Full
            → 1024 < length (spec.variable_word (word_of word.entry) self.old).reading.known.nodes }
    {
        let (Word::Name(_, text) | Word::Rounding(_, text)) = word else {
            return Ok(());
        };
        let variable = named(&mut self.reader, text)?;
        let Ok(()) = self.draft.split_variable(variable) else {
            return Err(DagFault::OutOfMemory);
        };
        Ok(())
    }

    /// Takes a word. `Full` only where its meaning has more than 1,024 nodes, and else an `Err`
    /// only where memory runs out; the reader is then not to be used on: what it holds is sound
    /// (`NodeReader::laws`), and the bounds of its rewritings are in normal form.
    #[tactic(auto, unfolding(crate::specs::Reading::read_hint))]
    pub fn token(&mut self, role: Due, word: Word<'a>) -> Result<(), DagFault>
        ensures reading { OnOk result
            (self.new ≡ spec.read_hint role (word_of word.entry) self.old) }
        ensures full { result ≡ Err DagFault.Full → 1024
            < length (spec.read_hint role (word_of word.entry) self.old).reading.known.nodes }
    {
        match role {
            Due::HintRest | Due::GoalSplit => self.end_side(word),
            Due::Needs => self.open_needs(),
            Due::NeedRelation => self.relate(word),
            Due::Semicolon => self.end_hint(),
            Due::Bound | Due::Magnitude => self.bound(word),
            Due::Hints => {
                self.draft.begin_cut();
                Ok(())
            }
            Due::SplitName => self.name(word),
            Due::Cut => {
                self.cut(word);
                Ok(())
            }
            _ => self.reader.read(None, role, word),
        }
    }
}
