//! The refusals that are judged on the words before the reading ends.

ghost use Rattle.std.specs.Prelude.{◌≡◌, ◌≤◌, ◌<◌, ◌+◌, ◌*◌, ◌&&◌, not, ◌∷◌, nat_lt, length, drop};
ghost use Rattle.std.specs.Prelude.{Some, None, Ok, IfOk, IfSome, OnOk};
ghost use Rattle.std.specs.Option.{option_copied, option_map};
ghost use Rattle.literal_order.specs.Values.{written_value, IsWritten};
ghost use Rattle.script_words.specs.Named.{word_of};
ghost use Rattle.script_words.specs.Kept.{words_in};
ghost use Rattle.script_shape.specs.Roles.{leaves_of};
ghost use Rattle.script_judge.specs.Names.{split_name};
ghost use Rattle.script_judge.specs.Splits.{is_lacking, is_bad_point};
ghost use Rattle.script_judge.specs.SplitViews.{said_if, AreKept, HasFewCases};
ghost use Rattle.script_judge.specs.Judge as spec;
ghost use Rattle.script_judge.specs.Judging.{JudgedTo, HoldsSaid, IsFirstFault};
ghost use Rattle.script_judge.specs.Limits.{IsWithinLimits, HasCases};
ghost use Rattle.script_judge.specs.BoundViews.{notes_of};
ghost use Rattle.script_judge.specs.Views.{IsSeen};

use crate::bounds::Bounds;
use crate::counts::{Counts, ScriptPart, counts_after};
use crate::fault::Fault;
use crate::formula::Formula;
use crate::kinds::{FormTests, form_kind, limit_kind};
use crate::names::Names;
use crate::nesting::{Open, open_or_close};
use crate::numbers::{Notes, has_no_pieces, is_past_lsb, is_past_pieces, notes_on};
use crate::refusal::RefusalKind;
use crate::sides::{arrow_count, is_arrow, is_on_wrong_side, without};
use crate::splits::Splits;
use script_shape::due::Due;
use script_words::list::WordList;
use script_words::words::Word;
use std::alloc::{AllocError, Global};

/// What stood before a token, but for split variables.
#[derive(Drop)]
struct Seen<'a> {
    names: Names<'a>,
    opened: Vec<Open>,
    counts: Counts,
    bounds: Bounds,
}

/// What is told of split variables at a token: whether it is one that lacks a range in some case,
/// and whether it is a point that doesn't split.
#[derive(Clone, Copy)]
struct SplitTests {
    lacks_range: bool,
    bad_point: bool,
}

/// What follows a token: the words and their roles, and whether an arrow is among them.
#[derive(Clone, Copy)]
struct Later<'w, 'a> {
    words: WordList<'w, 'a>,
    roles: &'w [Due],
    has_arrow: bool,
}

/// Whether a split variable without a definition lacks a range.
fn is_rangeless(defined: bool, lacks_range: bool) -> bool
    ensures { result ≡ (not defined && lacks_range) }
{
    !defined && lacks_range
}

/// What is refused whatever is counted.
fn form_refusal<'a>(
    seen: &Seen<'a>,
    leaf: (Due, Word<'a>),
    notes: Notes,
    later: Later<'_, 'a>,
    split: SplitTests,
) -> Option<RefusalKind>
    requires words { length later.roles.now ≤ length (words_in later.words) }
    requires lower { IsWritten seen.now.bounds.lower }
    requires number { IsWritten notes.number }
    ensures { (stands : spec.Seen) → IsSeen seen.now stands
        → split.lacks_range ≡ is_lacking stands.said
        (split_name leaf.entry.0 (word_of leaf.entry.1))
        → split.bad_point ≡ is_bad_point stands.splits (nat_lt 0 stands.counts.pieces)
        (option_map written_value notes.number)
        → result ≡ spec.form_refusal (notes_of notes) stands leaf.entry.0
        (word_of leaf.entry.1) later.entry.has_arrow
        (leaves_of later.entry.roles.now (words_in later.entry.words)) }
{
    let (role, word) = leaf;
    let Later {
        words,
        roles,
        has_arrow,
    } = later;
    let wrong_side = is_on_wrong_side(role, word, has_arrow, words, roles);
    let used = seen.names.is_used(role, word, words, roles);
    let bad_bound = seen.bounds.is_bad(notes.number);
    let defined_split = seen.names.splits_defined(role, word);
    let rangeless = is_rangeless(defined_split, split.lacks_range);
    let no_pieces = has_no_pieces(role, word);
    form_kind(FormTests {
        wrong_side,
        used,
        bad_bound,
        rangeless,
        defined_split,
        no_pieces,
        bad_point: split.bad_point,
        past: notes.past,
    })
}

/// The limit that is passed with the token.
fn limit_refusal<'a>(seen: &Seen<'a>, role: Due, word: Word<'a>) -> Option<RefusalKind>
    requires { seen.now.counts.cases * seen.now.counts.conjunctions ≤ 128 }
    ensures { (stands : spec.Seen) → IsSeen seen.now stands
        → result ≡ spec.limit_refusal stands role (word_of word.entry) }
{
    limit_kind(
        seen.opened.len(),
        seen.names.halved(),
        seen.counts,
        is_past_lsb(role, word),
        is_past_pieces(role, word),
    )
}

impl<'a> Seen<'a> {
    fn new(alloc: Global) -> Seen<'a>
        ensures seen { IsSeen result (spec.nothing_seen None) }
        ensures within { IsWithinLimits result.counts }
        ensures cases { HasCases result.counts }
    {
        Seen {
            names: Names::new(alloc),
            opened: Vec::new(alloc),
            counts: Counts {
                place: ScriptPart::Definitions,
                rounds: false,
                halves: false,
                definitions: 0,
                propositions: 0,
                hints: 0,
                nodes: 0,
                splits: 0,
                pieces: 0,
                cases: 1,
                conjunctions: 1,
            },
            bounds: Bounds::new(),
        }
    }

    /// Takes a token. After an `Err` it is not to be used on.
    fn take(&mut self, role: Due, word: Word<'a>, notes: Notes) -> Result<(), AllocError>
        requires counts { IsWithinLimits self.old.counts }
        requires cases { HasCases self.old.counts }
        requires lower { IsWritten self.old.bounds.lower }
        requires number { IsWritten notes.number }
        ensures seen { OnOk result ((stands : spec.Seen) → IsSeen self.old stands
            → IsSeen self.new (spec.seen_after (notes_of notes) stands role
            (word_of word.entry))) }
        ensures begun { OnOk result
            (self.new.counts.cases * self.new.counts.conjunctions ≤ 128) }
        ensures cases { OnOk result (HasCases self.new.counts) }
    {
        let is_new = self.names.is_new(role, word);
        self.names.take(self.counts.halves, role, word)?;
        open_or_close(&mut self.opened, role, word)?;
        self.counts = counts_after(self.counts, is_new, role, word);
        self.bounds.take(notes.number, role, word);
        Ok(())
    }
}

/// How far the words of a text were judged.
#[derive(Drop)]
pub struct Judging<'a> {
    seen: Seen<'a>,
    splits: Splits,
    /// How many words were judged, and how many `->` of the formula stand behind them.
    number: usize,
    arrows: usize,
}

fn role_at(roles: &[Due], number: usize) -> Due
    requires { number < length roles.now }
    ensures { drop number roles.now ≡ result ∷ drop (number + 1) roles.now }
{
    roles[number]
}

fn roles_from(roles: &[Due], number: usize) -> &[Due]
    requires { number ≤ length roles.now }
    ensures { result.now ≡ drop number roles.now }
{
    &roles[number..]
}

impl<'a> Judging<'a> {
    /// Before the first word of these.
    pub fn new(alloc: Global, words: WordList<'_, 'a>, roles: &[Due]) -> Judging<'a>
        ensures judged { JudgedTo (leaves_of roles.now (words_in words.entry)) result }
        ensures start { result.number ≡ 0 }
        ensures kept { AreKept None result.splits.ranges.items }
    {
        let seen = Seen::new(alloc);
        let splits = Splits::new(alloc);
        let arrows = arrow_count(words, roles);
        Judging {
            seen,
            splits,
            number: 0,
            arrows,
        }
    }

    /// Judges words up to one of this number: the first refused one, or none. The formula is that
    /// of the words before, where it has ended. `Err` only where memory runs out; it is not to be
    /// used on then, and not behind a refused word.
    pub fn judge(
        &mut self,
        formula: Option<&Formula<'a>>,
        words: WordList<'_, 'a>,
        roles: &[Due],
        end: usize,
    ) -> Result<Option<Fault>, AllocError>
        requires words { length roles.now ≤ length (words_in words) }
        requires end { end ≤ length roles.now }
        requires judged { JudgedTo (leaves_of roles.now (words_in words)) self.old }
        requires begun { self.old.number ≤ end }
        requires said { HoldsSaid (leaves_of roles.now (words_in words))
            (said_if (option_copied formula)) self.old.number end }
        requires few { HasFewCases (said_if (option_copied formula)) }
        requires kept { AreKept (said_if (option_copied formula)) self.old.splits.ranges.items }
        ensures refused { IfOk result (λ found. IfSome found (λ f. IsFirstFault
            (leaves_of roles.now (words_in words.entry)) (Some f))) }
        ensures within { IfOk result (λ found. IfSome found (λ f. f.word < length roles.now)) }
        ensures passed { result ≡ Ok None
            → JudgedTo (leaves_of roles.now (words_in words.entry)) self.new }
        ensures end { result ≡ Ok None → self.new.number ≡ end }
        ensures kept { OnOk result
            (AreKept (said_if (option_copied formula.entry)) self.new.splits.ranges.items) }
    {
        for number in self.number..end {
            let role = role_at(roles, number);
            let word = words.at(number);
            let later_words = words.from(number + 1);
            let later_roles = roles_from(roles, number + 1);
            let later_arrows = without(self.arrows, is_arrow(role, word));
            let notes = notes_on(role, word, later_words, later_roles);
            let bad_point = self
                .splits
                .is_bad_point(self.seen.counts.pieces > 0, notes.number);
            let lacks_range = self.splits.find(formula, role, word)?;
            let form = form_refusal(
                &self.seen,
                (role, word),
                notes,
                Later {
                    words: later_words,
                    roles: later_roles,
                    has_arrow: later_arrows > 0,
                },
                SplitTests {
                    lacks_range,
                    bad_point,
                },
            );
            if let Some(kind) = form {
                return Ok(Some(Fault { kind, word: number }));
            }
            self.splits.take(notes.number, role);
            self.seen.take(role, word, notes)?;
            if let Some(kind) = limit_refusal(&self.seen, role, word) {
                return Ok(Some(Fault { kind, word: number }));
            }
            self.arrows = later_arrows;
        }
        self.number = end;
        Ok(None)
    }
}
