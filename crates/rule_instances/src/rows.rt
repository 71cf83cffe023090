//! A list of instances that grows.

ghost use Rattle.std.specs.Prelude.{◌≡◌, ◌++◌, ◌∷◌, [], OnOk};
ghost use Rattle.rule_instances.specs.Slots.{rule};
ghost use Rattle.rule_instances.specs.Lists.{given};

use facts::{Instance, Slot};
use fx_edge::Items;
use std::alloc::{AllocError, Global};
use std::marker::Model;

/// The instances so far, in the order in which they were added.
#[derive(Drop)]
pub struct Rows {
    alloc: Global,
    list: Vec<Instance>,
}

impl Model for Rows {
    ghost use Rattle.std.specs.Prelude.{List};
    ghost use Rattle.facts.specs.declared.instance.Instance.{Instance as Row};

    ghost Value = { List Row };

    ghost view = { λ rows. rows.list.items };
}

impl Rows {
    /// No instances.
    pub fn new(alloc: Global) -> Rows
        ensures { result ≡ [] }
    {
        Rows {
            alloc,
            list: Vec::new(alloc),
        }
    }

    /// Where memory comes from.
    pub fn alloc(&self) -> Global {
        self.alloc
    }

    /// Adds an instance of the rewriting hint with this number.
    pub fn add_rewriting(
        &mut self,
        number: u16,
        premises: Vec<Slot>,
        target: Slot,
    ) -> Result<(), AllocError>
        ensures { OnOk result (self.new ≡ self.old
            ++ (record {
              rule = 80;
              arg = number;
              target = target;
              premises = premises.items;
            } ∷ [])) }
    {
        self.list.push(Instance {
            rule: 80,
            arg: number,
            target,
            premises: Items::from_vec(premises),
        })?;
        Ok(())
    }

    /// The instances, in the order in which they were added.
    pub fn into_vec(self) -> Vec<Instance>
        ensures { result.items ≡ self }
    {
        let Rows { list, .. } = self;
        list
    }

    /// Adds an instance of the rule with this number.
    pub fn add(&mut self, number: u8, premises: &[Slot], target: Slot) -> Result<(), AllocError>
        ensures { OnOk result (self.new ≡ self.old ++ (rule number premises.now target ∷ [])) }
    {
        let premises = premises.to_vec(self.alloc)?;
        self.list.push(Instance {
            rule: number,
            arg: 0,
            target,
            premises: Items::from_vec(premises),
        })?;
        Ok(())
    }

    /// Adds an instance of the rule with this number, where the test holds.
    pub fn add_if(
        &mut self,
        test: bool,
        number: u8,
        premises: &[Slot],
        target: Slot,
    ) -> Result<(), AllocError>
        ensures { OnOk result (self.new
            ≡ self.old ++ given test (rule number premises.now target)) }
    {
        if test {
            self.add(number, premises, target)?;
        }
        Ok(())
    }
}
