//! Sets of names.

ghost use Rattle.std.specs.Prelude.{◌≡◌, ◌∷◌, List, map, OnOk};
ghost use Rattle.std.specs.Option.{option_copied};
ghost use Rattle.script_words.specs.Named.{HasNames};
ghost use Rattle.script_judge.specs.Names as spec;
ghost use Rattle.script_judge.specs.Names.{Name};

use std::alloc::AllocError;
use std::collections::BTreeSet;

/// Whether the set has the name.
pub fn has<'a>(set: &BTreeSet<&'a [u8]>, name: &'a [u8]) -> bool
    ensures { (names : List Name) → HasNames set.now names → result ≡ spec.is_among names name.now }
{
    set.contains(&name)
}

/// Whether there is a name that the set has.
pub fn has_some<'a>(set: &BTreeSet<&'a [u8]>, name: Option<&'a [u8]>) -> bool
    ensures { (names : List Name) → HasNames set.now names
        → result ≡ spec.is_some_among names (option_copied name.entry) }
{
    match name {
        Some(name) => has(set, name),
        None => false,
    }
}

/// Whether there is a name that the set hasn't.
pub fn lacks_some<'a>(set: &BTreeSet<&'a [u8]>, name: Option<&'a [u8]>) -> bool
    ensures { (names : List Name) → HasNames set.now names
        → result ≡ spec.is_some_apart names (option_copied name.entry) }
{
    match name {
        Some(name) => !has(set, name),
        None => false,
    }
}

/// Adds a name.
#[inline(never)]
fn add<'a>(set: &mut BTreeSet<&'a [u8]>, name: &'a [u8]) -> Result<(), AllocError>
    ensures { OnOk result ((names : List Name) → HasNames set.old names
        → HasNames set.new (name.now ∷ names)) }
{
    set.insert(name)?;
    Ok(())
}

/// Adds a name, where there is one.
#[inline(always)]
pub fn add_some<'a>(set: &mut BTreeSet<&'a [u8]>, name: Option<&'a [u8]>) -> Result<(), AllocError>
    ensures { OnOk result ((names : List Name) → HasNames set.old names
        → HasNames set.new (spec.with_some (option_copied name.entry) names)) }
{
    match name {
        Some(name) => add(set, name),
        None => Ok(()),
    }
}

fn is_among(names: &[&[u8]], name: &[u8]) -> bool
    ensures { result ≡ spec.is_among (map (λ n. n.now) names.now) name.now }
{
    let mut names = names;
    while let [found, later @ ..] = names {
        if *found == name {
            return true;
        }
        names = later;
    }
    false
}

/// Adds a variable that hints halve, where it isn't there.
pub fn halve<'a>(
    halved: &mut Vec<&'a [u8]>,
    halves: bool,
    name: Option<&'a [u8]>,
) -> Result<(), AllocError>
    ensures { OnOk result (map (λ n. n.now) halved.new.items
        ≡ spec.halved_after (map (λ n. n.now) halved.old.items) halves (option_copied name.entry)) }
{
    let Some(name) = name else {
        return Ok(());
    };
    if halves && !is_among(halved.as_slice(), name) {
        halved.push(name)?;
    }
    Ok(())
}
