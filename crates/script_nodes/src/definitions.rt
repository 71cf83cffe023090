//! Words of definitions, by their roles.

ghost use Rattle.std.specs.Prelude.{◌≡◌, ◌<◌, length, Err, IfOk, IfErr, OnOk};
ghost use Rattle.std.specs.Option.{option_copied};
ghost use Rattle.script_words.specs.Named.{word_of};
ghost use Rattle.script_words.specs.Kept.{words_in};
ghost use Rattle.script_shape.specs.Tree.{Script, script_words};
ghost use Rattle.script_shape.specs.Roles.{HasRoles, leaves_of};
ghost use Rattle.script_nodes.specs.Known as spec_known;
ghost use Rattle.script_nodes.specs.Definitions.{definitions_value};
ghost use Rattle.script_nodes.specs.Waits as spec_waits;
ghost use Rattle.script_nodes.specs.Defining as spec;
ghost use Rattle.script_nodes.specs.Sound.{IsInRangeIf};

use crate::reader::{NO_ROUNDING, NodeReader};
use crate::waits::Waits;
use expr_dag::DagFault;
use fx_model::Rounding;
use script_shape::due::Due;
use script_shape::shape::leaves_are_of_trees;
use script_words::class::Symbol;
use script_words::list::WordList;
use script_words::words::Word;
use std::alloc::Global;
use std::marker::Model;

/// What is known, and the definition that is being read.
#[derive(Drop)]
pub struct Definitions<'a> {
    reader: NodeReader<'a>,
    /// The name whose definition is being read.
    name: Option<&'a [u8]>,
    /// What rounds its operations.
    rounds: Option<Rounding>,
}

impl<'a> Model for Definitions<'a> {
    ghost use Rattle.std.specs.Option.{option_copied};
    ghost use Rattle.script_nodes.specs.Defining.{Defining};
    ghost use Rattle.script_nodes.specs.Sound.{IsInRangeIf};

    ghost Value = { Defining };

    ghost view = { λ d.
        record { name = option_copied d.name; rounds = d.rounds; reading = d.reader } };

    ghost invariant = { λ d. IsInRangeIf d.rounds };
}

fn named_by<'a>(word: Word<'a>) -> Option<&'a [u8]>
    ensures { option_copied result ≡ spec.named_by (word_of word.entry) }
{
    match word {
        Word::Name(_, text) | Word::Rounding(_, text) => Some(text),
        _ => None,
    }
}

impl<'a> NodeReader<'a> {
    /// An operator begins.
    fn begin_operator(&mut self, word: Word<'a>) -> Result<(), DagFault>
        ensures reading { OnOk result
            (self.new ≡ spec.operator_begun (word_of word.entry) self.old) }
        ensures memory { IfErr result (λ fault. fault ≡ DagFault.OutOfMemory) }
    {
        match word {
            Word::Sign(Symbol::Fixed | Symbol::Int) => self.push(Waits::Operator(NO_ROUNDING)),
            _ => Ok(()),
        }
    }

    /// The operator or the value that was read gets its name.
    fn join(&mut self, rounds: Option<Rounding>, name: &'a [u8]) -> Result<(), DagFault>
        requires { IsInRangeIf rounds }
        ensures reading { OnOk result
            (self.new ≡ spec.joined rounds name.now self.old self.old.waits) }
        ensures full { result ≡ Err DagFault.Full
            → 1024 < length (spec.joined rounds name.now self.old self.old.waits).known.nodes }
    {
        if let Some(Waits::Call(rounding)) = self.top() {
            self.drop_top();
            return self.define_operator(name, rounding);
        }
        match self.expression(rounds)? {
            Some(x) => self.define_value(name, x),
            None => Ok(()),
        }
    }
}

impl<'a> Definitions<'a> {
    /// Before the first definition. It takes no memory.
    pub fn new(alloc: Global) -> Definitions<'a>
        ensures { result ≡ spec.between spec_known.nothing_known }
    {
        Definitions {
            reader: NodeReader::new(alloc),
            name: None,
            rounds: None,
        }
    }

    /// What stands between a definition's name and its expression.
    fn defined_by(&mut self, word: Word<'a>) -> Result<(), DagFault>
        ensures reading { OnOk result (self.new ≡ spec.defined_by self.old (word_of word.entry)) }
        ensures memory { IfErr result (λ fault. fault ≡ DagFault.OutOfMemory) }
    {
        match word {
            Word::Rounding(_, text) => {
                self.rounds = Some(self.reader.operator(text));
                Ok(())
            }
            _ => self.reader.begin_operator(word),
        }
    }

    /// An operator ends before its `=`.
    fn close_operator(&mut self)
        ensures { self.new ≡ spec.operator_closed self.old self.old.reading.waits }
    {
        if let Some(Waits::Operator(rounding)) = self.reader.top() {
            self.reader.drop_top();
            self.rounds = Some(rounding);
        }
    }

    /// The definition ends.
    fn end(&mut self) -> Result<(), DagFault>
        ensures reading { OnOk result (self.new ≡ spec.ended self.old) }
        ensures full { result ≡ Err DagFault.Full
            → 1024 < length (spec.ended self.old).reading.known.nodes }
    {
        let name = self.name;
        let rounds = self.rounds;
        self.name = None;
        self.rounds = None;
        match name {
            Some(name) => self.reader.join(rounds, name),
            None => Ok(()),
        }
    }

    /// Takes a word by its role. `Full` only where the meaning has more than 1,024 nodes, and else
    /// an `Err` only where memory runs out; it is then not to be used on: what its reader holds is
    /// sound (`NodeReader::laws`).
    #[tactic(auto, unfolding(crate::specs::Defining::define_word))]
    pub fn token(&mut self, role: Due, word: Word<'a>) -> Result<(), DagFault>
        ensures reading { OnOk result
            (self.new ≡ spec.define_word role (word_of word.entry) self.old) }
        ensures full { result ≡ Err DagFault.Full
            → 1024 < length (spec.define_word role
            (word_of word.entry) self.old).reading.known.nodes }
    {
        match role {
            Due::Script | Due::NewName => {
                self.name = named_by(word);
                Ok(())
            }
            Due::DefinedBy => self.defined_by(word),
            Due::Operator => self.reader.begin_operator(word),
            Due::CloseOperator => {
                self.close_operator();
                Ok(())
            }
            Due::Semicolon => self.end(),
            _ => self.reader.read(self.rounds, role, word),
        }
    }

    /// What is known, for what follows the definitions.
    pub fn into_reader(self) -> NodeReader<'a>
        ensures { result ≡ self.entry.reading }
    {
        self.reader
    }

    /// What is known.
    pub fn reader(&self) -> &NodeReader<'a>
        ensures { result.now ≡ self.now.reading }
    {
        &self.reader
    }
}

/// Whether the word is the `{` of the formula.
fn opens_formula(role: Due, word: Word<'_>) -> bool
    ensures { result ≡ spec.opens_formula role (word_of word.entry) }
{
    matches!((role, word), (Due::Script, Word::Sign(Symbol::OpenBrace)))
}

#[tactic(auto, unfolding(crate::specs::Defining::define_all))]
fn read_from_start<'a>(
    alloc: Global,
    words: WordList<'_, 'a>,
    roles: &[Due],
) -> Result<Definitions<'a>, DagFault>
    ensures read { IfOk result (λ read. read
        ≡ spec.read_from_start (leaves_of roles.now (words_in words.entry))) }
    ensures full { result ≡ Err DagFault.Full → 1024
        < length (spec.read_from_start
        (leaves_of roles.now (words_in words.entry))).reading.known.nodes }
{
    let mut read = Definitions::new(alloc);
    let mut words = words;
    let mut roles = roles;
    while let [role, later_roles @ ..] = roles {
        let Some((word, later_words)) = words.split_first() else {
            return Ok(read);
        };
        if opens_formula(*role, word) {
            return Ok(read);
        }
        read.token(*role, word)?;
        words = later_words;
        roles = later_roles;
    }
    Ok(read)
}

/// What the definitions before the formula add to nothing, from the words of a text with their
/// roles. `Full` only where they have more than 1,024 nodes, and else an `Err` only where memory
/// runs out.
pub fn definitions_of<'a>(
    alloc: Global,
    words: WordList<'_, 'a>,
    roles: &[Due],
) -> Result<Definitions<'a>, DagFault>
    ensures read { IfOk result (λ read. read
        ≡ spec.read_from_start (leaves_of roles.now (words_in words.entry))) }
    // Where the words are a script, what its tree means.
    ensures means { IfOk result (λ read. (tree : Script) → script_words tree ≡ words_in words.entry
        → HasRoles (words_in words.entry) (leaves_of roles.now (words_in words.entry))
        → read ≡ spec.between (definitions_value tree spec_known.nothing_known)) }
    ensures full { result ≡ Err DagFault.Full → 1024
        < length (spec.read_from_start
        (leaves_of roles.now (words_in words.entry))).reading.known.nodes }
{
    // Words of a script with roles are the leaves of its tree.
    leaves_are_of_trees();
    read_from_start(alloc, words, roles)
}
