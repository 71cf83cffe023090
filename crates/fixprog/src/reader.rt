//! Reads tokens as a program.

ghost use Rattle.std.specs.Prelude.{◌≡◌, ◌+◌, ◌<◌, ◌≤◌, ◌^◌, None, true, false, length, All, IfOk};
ghost use Rattle.std.specs.Prelude.{OnOk};
ghost use Rattle.fixprog.specs.Standing as standing;
ghost use Rattle.fixprog.specs.Finding as finding;
ghost use Rattle.fixprog.specs.Lex.{IsWithin, Lexes};
ghost use Rattle.fixprog.specs.First.{IsReadable};
ghost use Rattle.fixprog.specs.Views.{standing_of, statement_of, word_of, opening_of, answer_of};
ghost use Rattle.fixprog.specs.Read.{IsRead, IsTaken, IsStuck};
ghost use Rattle.fixprog.specs.First as first_spec;

use crate::fault::{ProgFault, ProgKind};
use crate::judge::{Names, earlier, judged};
use crate::lex::Lexed;
use crate::part::{Opening, Part, ended, next_part};
use crate::program::{Program, Statement};
use crate::word::{Word, token_word};
use std::alloc::{AllocError, Global};

/// The whole statements, the part of one that isn't ended, where the last word began, and the
/// first fault so far.
#[derive(Drop)]
pub struct ProgramReader<'a> {
    program: Program<'a>,
    names: Names<'a>,
    part: Part<'a>,
    last: u32,
    first: Option<ProgFault>,
}

impl<'a> ProgramReader<'a> {
    fn new(alloc: Global) -> ProgramReader<'a>
        ensures stands { standing_of result ≡ standing.nothing_read }
        ensures first { result.first ≡ None }
        ensures weight { result.names.weight ≡ 0 }
    {
        ProgramReader {
            program: Program {
                inputs: Vec::new(alloc),
                steps: Vec::new(alloc),
                outputs: Vec::new(alloc),
            },
            names: Names::new(alloc),
            part: Part::Between,
            last: 0,
            first: None,
        }
    }

    fn opening(&self) -> Opening
        ensures { opening_of result ≡ standing.opening_of (standing_of self.now) }
    {
        let steps = self.program.outputs.is_empty();
        Opening {
            inputs: self.program.steps.is_empty() && steps,
            steps,
        }
    }

    fn add(&mut self, statement: Statement<'a>) -> Result<(), AllocError>
        requires { self.old.names.weight + 2 < 2 ^ 32 }
        ensures stands { OnOk result (standing_of self.new
            ≡ standing.with_statement (standing_of self.old) (statement_of statement.entry)) }
        ensures first { OnOk result (self.new.first ≡ self.old.first) }
        ensures weight { OnOk result (self.new.names.weight ≤ self.old.names.weight + 2) }
    {
        match statement {
            Statement::Input(input) => {
                self.names.add(input.name, 2)?;
                self.program.inputs.push(input)?;
            }
            Statement::Step(step) => {
                self.names.add(step.name, 1)?;
                self.program.steps.push(step)?;
            }
            Statement::Output(name) => {
                self.names.weigh();
                self.program.outputs.push(name)?;
            }
        }
        self.part = Part::Between;
        Ok(())
    }

    /// Takes a word that begins at this byte, where it has a place.
    fn take(&mut self, word: Word<'a>, at: u32) -> Result<bool, AllocError>
        requires { self.old.names.weight + 2 < 2 ^ 32 }
        ensures taken { IfOk result (λ t. t ≡ true → IsTaken self.old self.new (word_of word.entry)
            at) }
        ensures stuck { IfOk result (λ t. t ≡ false
            → IsStuck self.old self.new (word_of word.entry)) }
        ensures weight { IfOk result (λ t. self.new.names.weight ≤ self.old.names.weight + 2) }
    {
        if let Some(statement) = ended(self.part, word) {
            self.add(statement)?;
            self.last = at;
            return Ok(true);
        }
        let Some(part) = next_part(self.opening(), self.part, word) else {
            return Ok(false);
        };
        self.first = judged(self.first, &self.names, self.part, word, self.last, at);
        self.part = part;
        self.last = at;
        Ok(true)
    }

    // A program may end here.
    fn is_whole(&self) -> bool
        ensures { result ≡ standing.is_whole (standing_of self.now) }
    {
        matches!(self.part, Part::Between) && !self.program.outputs.is_empty()
    }

    fn refuse(&mut self, kind: ProgKind, at: u32)
        ensures first { self.new.first ≡ finding.earlier self.old.first (first_spec.fault kind at) }
        ensures program { self.new.program ≡ self.old.program }
    {
        self.first = earlier(self.first, ProgFault { kind, at });
    }
}

impl<'a> ProgramReader<'a> {
    // The program, where there is no fault.
    fn answer(self) -> Result<Program<'a>, ProgFault>
        ensures { result ≡ answer_of self.entry.first self.entry.program }
    {
        match self.first {
            Some(fault) => Err(fault),
            None => Ok(self.program),
        }
    }
}

/// The program of a text's tokens, or the text's first fault. `Err` only where memory runs out.
pub fn read<'a>(
    alloc: Global,
    text: &'a [u8],
    lexed: &Lexed,
) -> Result<Result<Program<'a>, ProgFault>, AllocError>
    requires readable { IsReadable text.now }
    requires lexed { Lexes 0 text.now lexed.now.tokens.items lexed.now.bad }
    requires within { All (IsWithin text.now) lexed.now.tokens.items }
    requires few { length lexed.now.tokens.items ≤ length text.now }
    ensures { IfOk result (IsRead text.now) }
{
    let mut reader = ProgramReader::new(alloc);
    for i in 0..lexed.tokens.len() {
        let token = lexed.tokens[i];
        if !reader.take(token_word(text, token), token.start)? {
            reader.refuse(ProgKind::Unexpected, token.start);
            return Ok(reader.answer());
        }
    }
    match lexed.bad {
        Some(at) => reader.refuse(ProgKind::BadToken, at),
        None if !reader.is_whole() => reader.refuse(ProgKind::Unexpected, text.len() as u32),
        None => {}
    }
    Ok(reader.answer())
}
