//! Words of expressions, by their roles.

ghost use Rattle.std.specs.Prelude.{◌≡◌, ◌<◌, length, Err, IfOk, IfErr, OnOk};
ghost use Rattle.script_words.specs.Named.{word_of};
ghost use Rattle.script_nodes.specs.Known as spec_known;
ghost use Rattle.script_nodes.specs.OperatorWords as spec_operators;
ghost use Rattle.script_nodes.specs.Waits as spec;
ghost use Rattle.script_nodes.specs.Sound.{IsInRangeIf};

use crate::digits::{direction_of, literal_of, number_of};
use crate::reader::{NO_ROUNDING, NodeReader};
use crate::waits::Waits;
use expr_dag::DagFault;
use fx_model::{ExprId, Node, Rounding};
use script_shape::due::Due;
use script_words::class::Symbol;
use script_words::words::Word;

impl<'a> NodeReader<'a> {
    /// A sign that an operand begins with.
    fn sign_operand(&mut self, sign: Symbol) -> Result<(), DagFault>
        ensures reading { OnOk result (self.new ≡ spec.sign_operand sign self.old) }
        ensures memory { IfErr result (λ fault. fault ≡ DagFault.OutOfMemory) }
    {
        match sign {
            Symbol::Minus => self.push(Waits::Minus),
            Symbol::OpenParen => self.push(Waits::Paren),
            Symbol::Bar => self.push(Waits::Bar),
            Symbol::Fixed | Symbol::Int => self.push(Waits::Operator(NO_ROUNDING)),
            Symbol::Fma => self.push(Waits::Fma),
            _ => Ok(()),
        }
    }

    /// The number of a name's node: that of its value, or a variable's.
    fn name(&mut self, name: &'a [u8]) -> Result<ExprId, DagFault>
        ensures put { IfOk result
            (λ x. (self.new.known, x) ≡ spec_known.named self.old.known name.now) }
        ensures waits { self.new.waits ≡ self.old.waits }
        ensures below { IfOk result (λ x. x.0 < length self.new.known.nodes) }
        ensures full { result ≡ Err DagFault.Full
            → 1024 < length (spec_known.named self.old.known name.now).0.nodes }
    {
        match self.value(name) {
            Some(x) => Ok(x),
            None => self.variable(name),
        }
    }

    /// A word that an operand begins with, or is.
    fn operand(&mut self, rounds: Option<Rounding>, word: Word<'a>) -> Result<(), DagFault>
        requires { IsInRangeIf rounds }
        ensures reading { OnOk result
            (self.new ≡ spec.operand rounds (word_of word.entry) self.old) }
        ensures full { result ≡ Err DagFault.Full
            → 1024 < length (spec.operand rounds (word_of word.entry) self.old).known.nodes }
    {
        match word {
            Word::Literal(_, text) => {
                let x = self.add(Node::Lit(literal_of(text)))?;
                self.factor(rounds, x)
            }
            Word::Name(_, text) => {
                let x = self.name(text)?;
                self.factor(rounds, x)
            }
            Word::Rounding(_, text) => {
                let rounding = self.operator(text);
                self.push(Waits::Call(rounding))
            }
            Word::Sign(sign) => self.sign_operand(sign),
        }
    }

    /// A word between operands.
    fn between(&mut self, rounds: Option<Rounding>, word: Word<'a>) -> Result<(), DagFault>
        requires { IsInRangeIf rounds }
        ensures reading { OnOk result
            (self.new ≡ spec.operation rounds (word_of word.entry) self.old) }
        ensures full { result ≡ Err DagFault.Full
            → 1024 < length (spec.operation rounds (word_of word.entry) self.old).known.nodes }
    {
        match word {
            Word::Sign(Symbol::Plus) => self.plus(rounds),
            Word::Sign(Symbol::Minus) => self.minus(rounds),
            Word::Sign(Symbol::Star) => self.times(),
            Word::Sign(Symbol::Slash) => self.over(),
            _ => Ok(()),
        }
    }

    /// A least significant bit, or the minus before it.
    fn whole(&mut self, word: Word<'a>) -> Result<(), DagFault>
        ensures reading { OnOk result (self.new
            ≡ spec.with_waits self.old
            (spec_operators.whole_read (word_of word.entry) self.old.waits)) }
        ensures memory { IfErr result (λ fault. fault ≡ DagFault.OutOfMemory) }
    {
        match word {
            Word::Literal(_, text) => self.set_lsb(number_of(text) as i16),
            _ => Ok(()),
        }
    }

    /// A least significant bit behind a minus.
    fn opposite(&mut self, word: Word<'a>) -> Result<(), DagFault>
        ensures reading { OnOk result (self.new
            ≡ spec.with_waits self.old
            (spec_operators.opposite_read (word_of word.entry) self.old.waits)) }
        ensures memory { IfErr result (λ fault. fault ≡ DagFault.OutOfMemory) }
    {
        match word {
            Word::Literal(_, text) => self.set_lsb(-(number_of(text) as i16)),
            _ => Ok(()),
        }
    }

    /// A direction.
    fn direction(&mut self, word: Word<'a>) -> Result<(), DagFault>
        ensures reading { OnOk result (self.new
            ≡ spec.with_waits self.old
            (spec_operators.direction_read (word_of word.entry) self.old.waits)) }
        ensures memory { IfErr result (λ fault. fault ≡ DagFault.OutOfMemory) }
    {
        match word {
            Word::Name(_, text) | Word::Rounding(_, text) => self.set_direction(direction_of(text)),
            _ => Ok(()),
        }
    }

    /// Takes a word of an expression by its role. `Full` only where the meaning has more than 1,024
    /// nodes, and else an `Err` only where memory runs out; the reader is then not to be used on:
    /// what it holds is sound (`laws`), and which part of the word it took isn't said.
    #[tactic(auto, unfolding(crate::specs::Waits::read))]
    pub fn read(
        &mut self,
        rounds: Option<Rounding>,
        role: Due,
        word: Word<'a>,
    ) -> Result<(), DagFault>
        requires { IsInRangeIf rounds }
        ensures reading { OnOk result
            (self.new ≡ spec.read rounds role (word_of word.entry) self.old) }
        ensures full { result ≡ Err DagFault.Full
            → 1024 < length (spec.read rounds role (word_of word.entry) self.old).known.nodes }
    {
        match role {
            Due::Operand => self.operand(rounds, word),
            Due::Tail => self.between(rounds, word),
            Due::CloseParen | Due::CloseBar => self.close(rounds),
            Due::Comma => self.comma(rounds),
            Due::Whole => self.whole(word),
            Due::WholeDigits => self.opposite(word),
            Due::Direction => self.direction(word),
            Due::Greater => self.end_operator(),
            _ => Ok(()),
        }
    }
}
