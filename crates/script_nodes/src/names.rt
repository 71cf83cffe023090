//! Names, in the order in which they were put in.

ghost use Rattle.std.specs.Prelude.{◌≡◌, List, [], length, take, slice_get, IfOk, OnOk, OnErr};
ghost use Rattle.std.specs.Option.{option_copied};
ghost use Rattle.std.specs.List.{position, position_or_len};
ghost use Rattle.std.specs.Str.{bytes_eq};
ghost use Rattle.script_nodes.specs.Known as spec;

use fx_model::{ExprId, Rounding};
use indexmap::{IndexMap, IndexSet};
use std::alloc::{AllocError, Global};
use std::marker::Model;

/// The names of variables.
#[derive(Drop)]
pub struct Variables<'a> {
    names: IndexSet<&'a [u8]>,
}

impl<'a> Model for Variables<'a> {
    ghost use Rattle.std.specs.Prelude.{List, map};
    ghost use Rattle.script_nodes.specs.Known.{Name};

    ghost Value = { List Name };

    ghost view = { λ v. map (λ n. n.now) v.names.keys };
}

impl<'a> Variables<'a> {
    /// No variables. It takes no memory.
    pub fn new(alloc: Global) -> Variables<'a>
        ensures { result ≡ [] }
    {
        Variables {
            names: IndexSet::new(alloc),
        }
    }

    /// The place of a name, which goes last where it isn't there.
    pub fn put(&mut self, name: &'a [u8]) -> Result<usize, AllocError>
        ensures names { OnOk result (self.new ≡ spec.variables_with self.old name.now) }
        ensures place { IfOk result
            (λ place. place ≡ position_or_len (bytes_eq name.now) self.old) }
        ensures refused { OnErr result (self.new ≡ self.old) }
    {
        let (place, _) = self.names.insert_full(name)?;
        Ok(place)
    }

    /// The place of a name, if it is among them.
    pub fn place(&self, name: &'a [u8]) -> Option<usize>
        ensures { result ≡ position (bytes_eq name.now) self.now }
    {
        self.names.get_index_of(&name)
    }

    /// The name at a place, if there is one.
    pub fn get(&self, place: usize) -> Option<&'a [u8]>
        ensures { option_copied result ≡ slice_get self.now place }
    {
        let names = self.names.as_slice();
        if place < names.len() {
            Some(names[place])
        } else {
            None
        }
    }

    /// How many variables there are.
    pub fn len(&self) -> usize
        ensures { result ≡ length self.now }
    {
        self.names.len()
    }

    /// Keeps so many variables.
    pub fn truncate(&mut self, len: usize)
        ensures { self.new ≡ take len self.old }
    {
        self.names.truncate(len);
    }
}

/// The names that have a value, with the numbers of their nodes.
#[derive(Drop)]
pub struct Values<'a> {
    names: IndexMap<&'a [u8], ExprId>,
}

impl<'a> Model for Values<'a> {
    ghost use Rattle.std.specs.Prelude.{List, map};
    ghost use Rattle.script_nodes.specs.Known.{Name};
    ghost use Rattle.fx_model.specs.declared.ExprId.{ExprId};

    ghost Value = { List (Name × ExprId) };

    ghost view = { λ v. map (λ e. (e.0.now, e.1)) v.names.entries };
}

impl<'a> Values<'a> {
    /// No values. It takes no memory.
    pub fn new(alloc: Global) -> Values<'a>
        ensures { result ≡ [] }
    {
        Values {
            names: IndexMap::new(alloc),
        }
    }

    /// The number of a name's node, or none.
    pub fn get(&self, name: &'a [u8]) -> Option<ExprId>
        ensures { result ≡ spec.entry_of self.now name.now }
    {
        self.names.get(name).copied()
    }

    /// Gives a name a value.
    pub fn put(&mut self, name: &'a [u8], value: ExprId) -> Result<(), AllocError>
        ensures names { OnOk result (self.new ≡ spec.with_entry self.old name.now value) }
        ensures refused { OnErr result (self.new ≡ self.old) }
    {
        self.names.insert(name, value)?;
        Ok(())
    }
}

/// The names of operators, with the roundings that they stand for.
#[derive(Drop)]
pub struct Operators<'a> {
    names: IndexMap<&'a [u8], Rounding>,
}

impl<'a> Model for Operators<'a> {
    ghost use Rattle.std.specs.Prelude.{List, map};
    ghost use Rattle.script_nodes.specs.Known.{Name};
    ghost use Rattle.fx_model.specs.declared.Rounding.{Rounding};

    ghost Value = { List (Name × Rounding) };

    ghost view = { λ o. map (λ e. (e.0.now, e.1)) o.names.entries };
}

impl<'a> Operators<'a> {
    /// No operators. It takes no memory.
    pub fn new(alloc: Global) -> Operators<'a>
        ensures { result ≡ [] }
    {
        Operators {
            names: IndexMap::new(alloc),
        }
    }

    /// The rounding of a name, or none.
    pub fn get(&self, name: &'a [u8]) -> Option<Rounding>
        ensures { result ≡ spec.entry_of self.now name.now }
    {
        self.names.get(name).copied()
    }

    /// Gives a name a rounding.
    pub fn put(&mut self, name: &'a [u8], rounding: Rounding) -> Result<(), AllocError>
        ensures names { OnOk result (self.new ≡ spec.with_entry self.old name.now rounding) }
        ensures refused { OnErr result (self.new ≡ self.old) }
    {
        self.names.insert(name, rounding)?;
        Ok(())
    }
}
