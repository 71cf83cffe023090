//! What the definitions and the formula of a script say, word by word.

ghost use Rattle.std.specs.Prelude.{◌≡◌, ◌<◌, length, false, Err, IfOk, OnOk};
ghost use Rattle.script_words.specs.Named.{word_of};
ghost use Rattle.script_words.specs.Kept.{words_in};
ghost use Rattle.script_shape.specs.Roles.{leaves_of};
ghost use Rattle.script_nodes.specs.Defining.{opens_formula};
ghost use Rattle.script_judge.specs.Front as spec;
ghost use Rattle.script_judge.specs.FrontViews.{front_of};

use expr_dag::DagFault;
use script_claims::{ClaimReader, Sides, claims_only_grow, formulas_are_read};
use script_nodes::definitions::Definitions;
use script_nodes::laws::{nodes_only_grow, reads_definitions};
use script_nodes::reader::NodeReader;
use script_shape::due::Due;
use script_words::class::Symbol;
use script_words::list::WordList;
use script_words::words::Word;
use std::alloc::Global;

/// The nodes and the names that stand behind a formula, and what it claims.
#[derive(Drop)]
pub struct Formula<'a> {
    pub nodes: NodeReader<'a>,
    pub sides: Sides,
}

/// How far the definitions and the formula are read.
#[derive(Drop)]
pub enum Front<'a> {
    Definitions(Definitions<'a>),
    Claims(ClaimReader<'a>),
    Ended(Formula<'a>),
}

/// Whether the word is the `{` of the formula.
fn opens_formula(role: Due, word: Word<'_>) -> bool
    ensures { result ≡ opens_formula role (word_of word.entry) }
{
    matches!((role, word), (Due::Script, Word::Sign(Symbol::OpenBrace)))
}

/// Whether the word is the `}` of the formula.
fn closes_formula(role: Due) -> bool
    ensures { result ≡ spec.closes_formula role }
{
    matches!(role, Due::CloseBrace)
}

impl<'a> Front<'a> {
    /// Takes a word that neither opens the formula nor closes it. The front stays where it is in
    /// memory.
    #[tactic(auto, unfolding(crate::specs::Front::front_after))]
    fn stay(&mut self, role: Due, word: Word<'a>) -> Result<(), DagFault>
        requires opens { opens_formula role (word_of word) ≡ false }
        requires closes { spec.closes_formula role ≡ false }
        ensures read { OnOk result
            (front_of self.new ≡ spec.front_after role (word_of word.entry) (front_of self.old)) }
        ensures full { result ≡ Err DagFault.Full
            → 1024 < length (spec.front_nodes
            (spec.front_after role (word_of word.entry) (front_of self.old))) }
    {
        match self {
            Front::Definitions(definitions) => definitions.token(role, word),
            Front::Claims(claims) => claims.token(role, word),
            Front::Ended(_) => Ok(()),
        }
    }

    /// Takes a word by its role.
    #[tactic(auto, unfolding(crate::specs::Front::front_after))]
    fn read(self, alloc: Global, role: Due, word: Word<'a>) -> Result<Front<'a>, DagFault>
        ensures read { IfOk result (λ next.
            front_of next ≡ spec.front_after role (word_of word.entry) (front_of self.entry)) }
        ensures full { result ≡ Err DagFault.Full
            → 1024 < length (spec.front_nodes (spec.front_after role (word_of word.entry)
            (front_of self.entry))) }
    {
        match self {
            Front::Definitions(mut definitions) => {
                if opens_formula(role, word) {
                    return Ok(Front::Claims(ClaimReader::new(alloc, definitions.into_reader())));
                }
                definitions.token(role, word)?;
                Ok(Front::Definitions(definitions))
            }
            Front::Claims(mut claims) => {
                claims.token(role, word)?;
                if closes_formula(role) {
                    let (nodes, sides) = claims.into_parts();
                    return Ok(Front::Ended(Formula { nodes, sides }));
                }
                Ok(Front::Claims(claims))
            }
            Front::Ended(formula) => Ok(Front::Ended(formula)),
        }
    }
}

/// Nothing is done. The clause tells a caller that the words of definitions and of a formula, read
/// from the left, are read as their tree, whatever follows.
pub fn fronts_are_read()
    ensures { spec.ReadsFronts }
{
    reads_definitions();
    formulas_are_read();
}

/// What words with their roles say up to the end of a formula. `Full` only where they have more
/// than 1,024 nodes, and else an `Err` only where memory runs out.
#[tactic(auto, unfolding(crate::specs::Front::read_front))]
pub fn read_front<'a>(
    alloc: Global,
    words: WordList<'_, 'a>,
    roles: &[Due],
) -> Result<Front<'a>, DagFault>
    ensures read { IfOk result (λ front. front_of front
        ≡ spec.read_front (leaves_of roles.now (words_in words.entry)) spec.no_front) }
    ensures full { result ≡ Err DagFault.Full → 1024
        < length (spec.front_nodes (spec.read_front
        (leaves_of roles.now (words_in words.entry)) spec.no_front)) }
{
    nodes_only_grow();
    claims_only_grow();
    let mut front = Front::Definitions(Definitions::new(alloc));
    let mut words = words;
    let mut roles = roles;
    while let [role, later_roles @ ..] = roles {
        let Some((word, later_words)) = words.split_first() else {
            return Ok(front);
        };
        if opens_formula(*role, word) || closes_formula(*role) {
            front = front.read(alloc, *role, word)?;
        } else {
            front.stay(*role, word)?;
        }
        words = later_words;
        roles = later_roles;
    }
    Ok(front)
}
