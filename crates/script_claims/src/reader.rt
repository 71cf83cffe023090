//! The claims of a formula, read word by word.

ghost use Rattle.std.specs.Prelude.{◌≡◌, ◌<◌, All, length, None, Err, OnOk, IfErr};
ghost use Rattle.script_words.specs.Named.{word_of};
ghost use Rattle.script_claims.specs.Facts.{HasNormalBounds};
ghost use Rattle.script_claims.specs.Claims.{stated, no_sides, with_goal, behind_or_sign};
ghost use Rattle.script_claims.specs.Claims.{behind_arrow};
ghost use Rattle.script_claims.specs.Parts as spec_parts;
ghost use Rattle.script_claims.specs.Reads as spec;

use crate::claim::Claim;
use crate::part::Part;
use crate::proposition::{NOTHING_READ, Proposition};
use crate::sides::Sides;
use expr_dag::DagFault;
use fx_model::ExprId;
use script_nodes::reader::NodeReader;
use script_shape::due::Due;
use script_words::class::Symbol;
use script_words::words::Word;
use std::alloc::Global;
use std::marker::Model;

/// The nodes that were read, the proposition in hand, and the claims so far.
#[derive(Drop)]
pub struct ClaimReader<'a> {
    nodes: NodeReader<'a>,
    proposition: Proposition,
    sides: Sides,
}

impl<'a> Model for ClaimReader<'a> {
    ghost use Rattle.script_claims.specs.Reads.{State};
    ghost use Rattle.script_claims.specs.Parts.{IsNormalPart};

    ghost Value = { State };

    ghost view = { λ r.
        record { reading = r.nodes; proposition = r.proposition; sides = r.sides } };

    ghost invariant = { λ r. IsNormalPart r.proposition.part };
}

impl<'a> ClaimReader<'a> {
    /// No claims, over what was read before. It takes no memory.
    pub fn new(alloc: Global, nodes: NodeReader<'a>) -> ClaimReader<'a>
        ensures { result ≡ record {
          reading = nodes.entry;
          proposition = spec_parts.nothing_read;
          sides = no_sides;
        } }
    {
        ClaimReader {
            nodes,
            proposition: NOTHING_READ,
            sides: Sides::new(alloc),
        }
    }

    /// The hypotheses so far.
    pub fn hypotheses(&self) -> &[Claim]
        ensures value { result.now ≡ self.now.sides.hypotheses }
        ensures normal { All HasNormalBounds result.now }
    {
        self.sides.hypotheses()
    }

    /// The goals so far.
    pub fn goals(&self) -> &[Claim]
        ensures value { result.now ≡ self.now.sides.goals }
        ensures normal { All HasNormalBounds result.now }
    {
        self.sides.goals()
    }

    /// What was read, for what follows the formula, and its claims.
    pub fn into_parts(self) -> (NodeReader<'a>, Sides)
        ensures nodes { result.0 ≡ self.entry.reading }
        ensures sides { result.1 ≡ self.entry.sides }
    {
        (self.nodes, self.sides)
    }

    // Takes the sign behind the first expression.
    fn relate(&mut self, word: Word<'_>) -> Result<(), DagFault>
        ensures read { OnOk result (self.new
            ≡ spec.expr_taken (spec_parts.relation_behind (word_of word.entry)) self.old) }
        ensures full { result ≡ Err DagFault.Full → 1024 < length
            (spec.expr_taken (spec_parts.relation_behind (word_of word.entry))
            self.old).reading.known.nodes }
    {
        if let Some(x) = self.nodes.expression(None)? {
            self.proposition.part = self.proposition.part.related(word, x);
        }
        Ok(())
    }

    // Takes the `in` behind the second expression.
    fn compare(&mut self) -> Result<(), DagFault>
        ensures read { OnOk result (self.new ≡ spec.expr_taken spec_parts.in_behind self.old) }
        ensures full { result ≡ Err DagFault.Full
            → 1024 < length (spec.expr_taken spec_parts.in_behind self.old).reading.known.nodes }
    {
        if let Some(y) = self.nodes.expression(None)? {
            self.proposition.part = self.proposition.part.compared(y);
        }
        Ok(())
    }

    // One more goal, and the proposition has ended.
    fn add(&mut self, claim: Claim) -> Result<(), DagFault>
        requires { HasNormalBounds claim }
        ensures added { OnOk result (self.new ≡ spec.state_of self.old.reading
            (with_goal self.old.sides (stated self.old.proposition.denied claim))) }
        ensures memory { IfErr result (λ fault. fault ≡ DagFault.OutOfMemory) }
    {
        let added = if self.proposition.denied {
            self.sides.add(claim.denial())
        } else {
            self.sides.add(claim)
        };
        let Ok(()) = added else {
            return Err(DagFault::OutOfMemory);
        };
        self.proposition = NOTHING_READ;
        Ok(())
    }

    // Takes the end of a proposition.
    fn end(&mut self) -> Result<(), DagFault>
        ensures read { OnOk result (self.new ≡ spec.ended self.old) }
        ensures full { result ≡ Err DagFault.Full
            → 1024 < length (spec.ended self.old).reading.known.nodes }
    {
        match self.proposition.part {
            Part::Made(claim) => return self.add(claim),
            Part::Nothing => {
                if let Some(x) = self.nodes.expression(None)? {
                    return self.add(Claim::Multiple(x, self.proposition.exponent));
                }
            }
            _ => {}
        }
        self.proposition = NOTHING_READ;
        Ok(())
    }

    // Takes the sign behind a proposition.
    fn connect(&mut self, word: Word<'_>) -> Result<(), DagFault>
        ensures read { OnOk result
            (self.new ≡ spec.connected (word_of word.entry) (spec.ended self.old)) }
        ensures full { result ≡ Err DagFault.Full
            → 1024 < length (spec.ended self.old).reading.known.nodes }
    {
        self.end()?;
        match word {
            Word::Sign(Symbol::Or) => self.disjoin(),
            Word::Sign(Symbol::Arrow) => self.assume(),
            _ => Ok(()),
        }
    }

    // Ends a conjunction.
    fn disjoin(&mut self) -> Result<(), DagFault>
        ensures ended { OnOk result
            (self.new ≡ record self.old { sides = behind_or_sign self.old.sides }) }
        ensures memory { IfErr result (λ fault. fault ≡ DagFault.OutOfMemory) }
    {
        match self.sides.disjoin() {
            Ok(()) => Ok(()),
            Err(_) => Err(DagFault::OutOfMemory),
        }
    }

    // Makes hypotheses of all goals.
    fn assume(&mut self) -> Result<(), DagFault>
        ensures ended { OnOk result
            (self.new ≡ record self.old { sides = behind_arrow self.old.sides }) }
        ensures memory { IfErr result (λ fault. fault ≡ DagFault.OutOfMemory) }
    {
        match self.sides.assume() {
            Ok(()) => Ok(()),
            Err(_) => Err(DagFault::OutOfMemory),
        }
    }

    /// Takes a word of a formula, or the brace behind it, by its role. `Full` only where the
    /// meaning has more than 1,024 nodes, and else an `Err` only where memory runs out; the reader
    /// is then not to be used on: what it holds is sound (`NodeReader::laws`), and the bounds of
    /// its claims are in normal form.
    #[tactic(auto, unfolding(script_nodes::specs::Waits::read, crate::specs::Reads::read_claim))]
    pub fn token(&mut self, role: Due, word: Word<'a>) -> Result<(), DagFault>
        ensures read { OnOk result (self.new ≡ spec.read_claim role (word_of word.entry) self.old) }
        ensures full { result ≡ Err DagFault.Full
            → 1024 < length (spec.read_claim role
            (word_of word.entry) self.old).reading.known.nodes }
    {
        match role {
            Due::Relation => self.relate(word),
            Due::In => self.compare(),
            Due::Connective => self.connect(word),
            Due::CloseBrace => self.end(),
            _ => {
                self.nodes.read(None, role, word)?;
                self.proposition.read(role, word);
                Ok(())
            }
        }
    }
}
