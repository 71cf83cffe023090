// Simple commands: names, and options with a value.
ghost use Rattle.std.specs.Prelude.{◌≡◌, ◌≢◌, [], map, string_bytes, IfOk, IfErr, true, false};
ghost use Rattle.std.specs.Option.{option_map};
ghost use Rattle.clap.specs.Words.{rule_of, app_of, rows_of, found_of, matches_of, fault_of};
ghost use Rattle.clap.specs.Words.{is_simple_and_free};
ghost use Rattle.command_line.specs.Simple.{option_rule, name_rule, bare_app, are_names};

use clap::error::ErrorKind;
use clap::{Arg, ArgAction, ArgMatches, Command};
use std::alloc::Global;

/// Why words weren't read.
#[derive(Clone, Copy, Debug, PartialEq, Eq)]
pub enum WordsError {
    /// They are no words of the command.
    Usage,
    /// Memory ran out.
    OutOfMemory,
}

/// `--name value`
pub fn option<'a>(alloc: Global, name: &'a str) -> Arg<'a>
    ensures rule { rule_of result ≡ option_rule name.entry.now }
    ensures local { result.global ≡ false }
{
    Arg::new(alloc, name).long(name).action(ArgAction::Set)
}

/// A name that has to be there.
pub fn name<'a>(alloc: Global, id: &'a str) -> Arg<'a>
    ensures rule { rule_of result ≡ name_rule id.entry.now }
    ensures local { result.global ≡ false }
{
    Arg::new(alloc, id).required(true).action(ArgAction::Set)
}

/// A command that has no names and no options yet.
pub fn bare<'a>(alloc: Global, name: &'a str) -> Command<'a>
    ensures { app_of result ≡ bare_app name.entry.now }
{
    Command::new(alloc, name)
        .no_binary_name(true)
        .disable_help_flag(true)
}

/// Whether a script, and a certificate, if there is one, may have these names, and so may any
/// other two files: neither is empty, and they aren't equal.
pub fn are_names(script: &str, cert: Option<&str>) -> bool
    ensures { result ≡ are_names script.now (option_map (λ c. c.now) cert.entry) }
{
    match cert {
        Some(cert) => !script.is_empty() && !cert.is_empty() && script != cert,
        None => !script.is_empty(),
    }
}

/// What clap makes of the words.
pub fn matches_by<'a>(
    command: Command<'a>,
    words: &'a [String],
) -> Result<ArgMatches<'a>, WordsError>
    requires { is_simple_and_free (app_of command) ≡ true }
    ensures fits { IfOk result
        (λ m. fault_of (app_of command.entry) (map string_bytes words.entry.now) ≡ []) }
    ensures rows { IfOk result (λ m. rows_of (found_of m)
        ≡ matches_of (app_of command.entry) (map string_bytes words.entry.now)) }
    ensures usage { IfErr result (λ e. e ≡ WordsError.Usage
        → fault_of (app_of command.entry) (map string_bytes words.entry.now) ≢ []) }
{
    match command.try_get_matches_from(words) {
        Ok(matches) => Ok(matches),
        Err(error) => {
            if error.kind() == ErrorKind::OutOfMemory {
                Err(WordsError::OutOfMemory)
            } else {
                Err(WordsError::Usage)
            }
        }
    }
}
