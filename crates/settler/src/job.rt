//! What is to be proved, and what it comes to.
ghost use Rattle.std.specs.Prelude.{◌≡◌, IfOk};
ghost use Rattle.proof_options.specs.Ranges.{AreAllowed};
ghost use Rattle.universe.specs.Universes.{IsTooLarge};
ghost use Rattle.box_tree.specs.Plans.{cut_at};
ghost use Rattle.bisect.specs.Trees.{tree_of};
ghost use Rattle.bisect.specs.Answers.{IsAnswer};
ghost use Rattle.settler.specs.Answers.{ComesTo, options_from};
ghost use Rattle.settler.specs.Calls.{IsAnswerer};
ghost use Rattle.settler.specs.Decided.{state_at};
ghost use Rattle.settler.specs.Frames.{Fits};
ghost use Rattle.settler.specs.Held.{ProvedHolds};
ghost use Rattle.settler.specs.Jobs.{IsJob, IsSameJob};

use crate::cases::{Case, planned_cases};
use crate::laws::{cases_hold, proved_answers_hold};
use crate::run::answer_cases;
use crate::trees::{answer_tree, answer_tree_alone};
use bisect::Outcome;
use box_tree::Plan;
use derivation::{best_tables_exist, boxes_come_to_one_state};
use fx_edge::Gate;
use goals::settling_facts;
use proof_options::Options;
use rule_universe::Universe;
use saturate::rules_are_lawful;
use script_grammar::Script;
use std::alloc::{AllocError, Global};
use std::sync::Wait;
use std::thread::Threads;
use universe::{UniverseFault, build};

/// What is to be proved, made once by `Job::new`, which ensures `IsJob`: a script over its
/// universe, with its cases and their plans, and how it is to be proved.
#[derive(Drop)]
pub struct Job<'a, 't> {
    pub script: &'a Script<'t>,
    /// Some claims may be assumed in it.
    pub universe: Universe,
    pub cases: Vec<Case>,
    pub options: Options,
}

impl<'a, 't> Job<'a, 't> {
    /// The job of a script under the options. `ExprLimit` comes only where it has too many
    /// expressions; lack of memory is the other error.
    pub fn new(
        alloc: Global,
        script: &'a Script<'t>,
        options: Options,
    ) -> Result<Job<'a, 't>, UniverseFault>
        requires { AreAllowed options }
        ensures job { IfOk result IsJob }
        ensures script { IfOk result (λ j. j.script.now ≡ script.entry.now) }
        ensures options { IfOk result (λ j. j.options ≡ options) }
        ensures many { result ≡ Err UniverseFault.ExprLimit → IsTooLarge script.entry.now }
    {
        let universe = build(alloc, script)?;
        let cases = planned_cases(alloc, script, options.depth)?;
        Ok(Job {
            script,
            universe,
            cases,
            options,
        })
    }

    // What the script comes to, where each tree is answered by the call.
    fn answer_by<A: Fn(&Universe, &Plan, Options) -> Result<Outcome, AllocError>>(
        &mut self,
        alloc: Global,
        answer_tree: &A,
    ) -> Result<Outcome, AllocError>
        requires answers { IsAnswerer (A.pre answer_tree.now) (A.post answer_tree.now) }
        requires job { IsJob self.old }
        ensures comes { IfOk result (ComesTo self.old.script.now (options_from self.old.options)) }
        ensures holds { IfOk result
            (λ _. ProvedHolds self.old.script.now (options_from self.old.options)) }
        ensures job { IsJob self.new }
        ensures same { IsSameJob self.old self.new }
    {
        self.script.laws();
        self.universe.laws();
        rules_are_lawful();
        best_tables_exist();
        boxes_come_to_one_state();
        settling_facts();
        cases_hold();
        proved_answers_hold();
        answer_cases(
            alloc,
            answer_tree,
            self.script,
            &mut self.universe,
            &self.cases,
            self.options,
        )
    }

    /// What the script comes to: the boxes of each case are cut by its plan, and settled over the
    /// universe in which its claims are assumed; all cases share the boxes of the options. Workers
    /// settle them, as many as the options say. Each calls the gate before and after a box. Neither
    /// their number nor their schedule changes the answer. Lack of memory is the only error. It may
    /// wait.
    pub fn answer<G: Gate, R: Threads + Wait + Sync>(
        &mut self,
        rt: &R,
        alloc: Global,
        gate: &G,
    ) -> Result<Outcome, AllocError>
        requires { IsJob self.old }
        ensures comes { IfOk result (ComesTo self.old.script.now (options_from self.old.options)) }
        // Where it is proved, its lines hold, and its goals are true.
        ensures holds { IfOk result
            (λ _. ProvedHolds self.old.script.now (options_from self.old.options)) }
        ensures job { IsJob self.new }
        ensures same { IsSameJob self.old self.new }
    {
        self.answer_by(
            alloc,
            &|universe: &Universe, plan: &Plan, share: Options| -> Result<Outcome, AllocError>
                requires fits { Fits universe.now plan.now }
                requires allowed { AreAllowed share }
                ensures { IfOk result (IsAnswer
                    (tree_of (cut_at plan.now) (state_at universe.now plan.now share.rounds))
                    share.boxes) }
            { answer_tree(rt, alloc, universe, plan, share, gate) },
        )
    }

    /// The same outcome, by this thread alone: it calls no gate and waits for nobody. Lack of
    /// memory is the only error.
    pub fn answer_alone(&mut self, alloc: Global) -> Result<Outcome, AllocError>
        requires { IsJob self.old }
        ensures comes { IfOk result (ComesTo self.old.script.now (options_from self.old.options)) }
        // Where it is proved, its lines hold, and its goals are true.
        ensures holds { IfOk result
            (λ _. ProvedHolds self.old.script.now (options_from self.old.options)) }
        ensures job { IsJob self.new }
        ensures same { IsSameJob self.old self.new }
    {
        self.answer_by(
            alloc,
            &|universe: &Universe, plan: &Plan, share: Options| -> Result<Outcome, AllocError>
                requires { Fits universe.now plan.now }
                ensures { IfOk result (IsAnswer
                    (tree_of (cut_at plan.now) (state_at universe.now plan.now share.rounds))
                    share.boxes) }
            { answer_tree_alone(alloc, universe, plan, share) },
        )
    }
}
