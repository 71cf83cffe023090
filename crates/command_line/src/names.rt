// Commands of two names.
ghost use Rattle.std.specs.Prelude.{◌≡◌, ◌≢◌, map, string_bytes, true, Some, None, IfOk, IfErr};
ghost use Rattle.std.specs.Prelude.{IfSome};
ghost use Rattle.std.specs.Option.{option_map};
ghost use Rattle.clap.specs.Words.{app_of, found_of, first_value, is_simple_and_free};
ghost use Rattle.command_line.specs.Names.{names_app, asked_names, names_from, names_of};

use crate::simple::{WordsError, are_names, bare, matches_by, name};
use clap::{ArgMatches, Command};
use std::alloc::{AllocError, Global};

/// Two names, neither of them empty and not the same.
#[derive(Clone, Copy)]
pub struct TwoNames<'a> {
    /// It stands before the other.
    pub first: &'a str,
    /// It stands behind the other.
    pub second: &'a str,
}

/// A command of two names, by its own name and their ids.
pub fn names_command<'a>(
    alloc: Global,
    command: &'a str,
    first: &'a str,
    second: &'a str,
) -> Result<Command<'a>, AllocError>
    ensures { IfOk result (λ c.
        app_of c ≡ names_app command.entry.now first.entry.now second.entry.now) }
{
    bare(alloc, command)
        .arg(name(alloc, first))?
        .arg(name(alloc, second))
}

// The names in what clap found, by their ids.
fn names_in<'a>(matches: &ArgMatches<'a>, first: &str, second: &str) -> Option<TwoNames<'a>>
    ensures read { option_map names_of result
        ≡ names_from first.now second.now (first_value (found_of matches.now)) }
    ensures apart { IfSome result (λ n. n.first.now ≢ n.second.now) }
{
    let one = matches.get_str(first)?;
    let other = matches.get_str(second)?;
    if !are_names(one, Some(other)) {
        return None;
    }
    Some(TwoNames {
        first: one,
        second: other,
    })
}

/// Reads the words after a command of two names, by its own name and their ids. `Usage` comes
/// exactly where the words ask for nothing.
#[tactic(auto, unfolding(crate::specs::Names::asked_names))]
pub fn two_names<'a>(
    alloc: Global,
    command: &'a str,
    first: &'a str,
    second: &'a str,
    words: &'a [String],
) -> Result<TwoNames<'a>, WordsError>
    requires { is_simple_and_free (names_app command.now first.now second.now) ≡ true }
    ensures ok { IfOk result (λ n.
        asked_names command.entry.now first.entry.now second.entry.now
        (map string_bytes words.entry.now) ≡ Some (names_of n)) }
    ensures apart { IfOk result (λ n. n.first.now ≢ n.second.now) }
    ensures usage { IfErr result (λ e. e ≡ WordsError.Usage
        → asked_names command.entry.now first.entry.now second.entry.now
        (map string_bytes words.entry.now) ≡ None) }
{
    let Ok(built) = names_command(alloc, command, first, second) else {
        return Err(WordsError::OutOfMemory);
    };
    match matches_by(built, words) {
        Ok(matches) => match names_in(&matches, first, second) {
            Some(names) => Ok(names),
            None => Err(WordsError::Usage),
        },
        Err(error) => Err(error),
    }
}
