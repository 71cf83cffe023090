//! What a certificate is judged against.
ghost use Rattle.std.specs.Prelude.{◌≡◌};
ghost use Rattle.cert_checker.specs.Steps.{case_facts};

use expr_dag::Dag;
use facts::{Fact, HintMark, HintRow};
use fx_edge::Items;
use goals::Goal;

/// What a script asks of its certificates.
#[derive(Drop)]
pub struct Subject {
    /// The nodes of its expressions, each made of earlier ones.
    pub nodes: Dag,
    /// How many variables it has.
    pub variables: u16,
    /// What its hypotheses say, case by case, with their bounds rounded outward.
    pub cases: Items<Items<Fact>>,
    /// What its goals want.
    pub goals: Items<Goal>,
    /// The marks of its hints.
    pub marks: Items<HintMark>,
    /// The rows of its hints.
    pub hints: Items<HintRow>,
}

impl Subject {
    /// What the hypotheses of the case with this number, from 0, say.
    pub fn facts(&self, case: usize) -> &[Fact]
        ensures { result.now ≡ case_facts self.now.cases case }
    {
        match self.cases.as_slice().get(case) {
            Some(facts) => facts.as_slice(),
            None => &[],
        }
    }
}
