//! Who gives conclusions, and how often it was asked.
ghost use Rattle.std.specs.Prelude.{◌≡◌, ◌+◌, ℕ, List};
ghost use Rattle.fx_model.specs.declared.Node.{Node};
ghost use Rattle.facts.specs.declared.hint.HintRow.{HintRow};
ghost use Rattle.derivation.specs.Lists.{IsLawful};
ghost use Rattle.saturate.specs.Rules.{Rules};

use expr_dag::Dag;
use facts::{Fact, HintRow, Instance};

/// Gives what rules conclude, and counts how often it was asked. Code that takes any such type
/// can't know which rules these are, so each conclusion that it has was asked for here, and was
/// counted.
pub trait Concludes {
    // The lists of rules that it asks.
    ghost rules: { Rules };

    // How often it was asked.
    ghost asked: { Self → ℕ };

    /// What the rule of this instance concludes on its target from these premises: one step.
    fn conclude(
        &mut self,
        dag: &Dag,
        hints: &[HintRow],
        instance: &Instance,
        premises: &[Fact],
    ) -> Option<Fact>
        ensures is { result ≡
            (let i = instance.now in rules dag.now hints.now i.rule i.arg premises.now i.target) }
        ensures counted { asked self.new ≡ asked self.old + 1 };

    /// Nothing is done. The clause tells a caller that over every list of nodes and rows of hints
    /// the list of rules is isotone, but for the shrinking rule, and concludes on the target or
    /// VOID.
    fn rules_are_lawful()
        ensures { (nodes : List Node) (hints : List HintRow) → IsLawful (rules nodes hints) };
}
