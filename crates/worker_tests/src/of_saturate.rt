//! How often conclusions are asked for in a small tree: less by sweeps than by rounds.
ghost use Rattle.std.specs.Prelude.{◌≡◌, ◌<◌, List, length, IfSome};
ghost use Rattle.derivation.specs.Known.{Piece, IsTableAt};
ghost use Rattle.saturate.specs.Tables.{fact_at};
ghost use Rattle.saturate.specs.Universes.{setting_of, HasAllPlaces};
ghost use Rattle.saturate.specs.Closed.{IsMarked};
ghost use Rattle.saturate.specs.Boxes.{table_of};

use crate::equals::holds;
use dyadic::{Dyadic, End};
use expr_dag::Dag;
use facts::{Fact, HintRow, Instance};
use fx_model::{ExprId, Node};
use interval::Interval;
use rule_universe::Universe;
use saturate::{Area, Concludes, Settled, Steps, Table, rules_are_lawful, settle_counted};
use script_grammar::{Script, parse};
use std::alloc::{AllocError, Global};
use std::marker::Brand;
use std::process::Abort;
use std::sync::ledger::{Blank, Ledger};
use std::test::Fail;
use universe::{assume, build};

const ROUNDS: u8 = 64;

// A polynomial beside its twin without roundings. No hint splits a variable, so the instances of
// its universe aren't in order, and each box is settled by rounds.
const BY_ROUNDS: &[u8] = b"@q = fixed<-8,dn>;\n\
    y q= ((((x*0.5-0.25)*x+0.125)*x-0.5)*x+0.25)*x;\n\
    Y = ((((x*0.5-0.25)*x+0.125)*x-0.5)*x+0.25)*x;\n\
    { x in [0,1] -> y - Y in ? }";

// The same with a hint that splits it.
const BY_SWEEPS: &[u8] = b"@q = fixed<-8,dn>;\n\
    y q= ((((x*0.5-0.25)*x+0.125)*x-0.5)*x+0.25)*x;\n\
    Y = ((((x*0.5-0.25)*x+0.125)*x-0.5)*x+0.25)*x;\n\
    { x in [0,1] -> y - Y in ? } $ x in 4;";

// Counts the conclusions while the program runs, too.
#[derive(Drop)]
struct Counted<L: Ledger> {
    steps: Steps<L>,
    count: u32,
}

impl<L: Ledger> Concludes for Counted<L> {
    ghost use Rattle.theorem_list.specs.Concludes.{concludes};

    ghost rules = { concludes };

    ghost asked = { λ c. c.steps };

    fn conclude(
        &mut self,
        dag: &Dag,
        hints: &[HintRow],
        instance: &Instance,
        premises: &[Fact],
    ) -> Option<Fact> {
        self.count = self.count.saturating_add(1);
        self.steps.conclude(dag, hints, instance, premises)
    }

    fn rules_are_lawful() {
        rules_are_lawful();
    }
}

fn first_variable(dag: &Dag) -> Option<ExprId>
    ensures { IfSome result (λ x. x.0 < length dag.now) }
{
    for n in 0..dag.len() {
        if let Node::Var(_) = dag.node(ExprId(n)) {
            return Some(ExprId(n));
        }
    }
    None
}

fn table_in(settled: Settled) -> Table
    ensures { result ≡ table_of settled }
{
    match settled {
        Settled::Done(table) => table,
        Settled::Void(table) => table,
        Settled::Open(table, _) => table,
    }
}

// The piece with this number of 2 or 4 equal ones from 0 to 1.
fn piece(k: u8, exponent: i32) -> Option<Interval> {
    let lo = Dyadic::new(i64::from(k), exponent)?;
    let hi = Dyadic::new(i64::from(k) + 1, exponent)?;
    Interval::new(End::At(lo), End::At(hi))
}

// Settles the two boxes below the one with this table, whose pieces have these numbers of four.
fn settle_pieces<L: Ledger>(
    uni: &Universe,
    x: ExprId,
    parent: &Table,
    first: u8,
    area: &mut Area,
    counted: &mut Counted<L>,
) -> Result<(), AllocError>
    requires variable { x.0 < length uni.now.nodes }
    requires few { first < 4 }
    requires given { (above : List Piece)
        × IsTableAt (setting_of uni.now) 64 above (fact_at parent.now) }
    requires places { HasAllPlaces uni.now parent.now }
    requires marked { IsMarked (setting_of uni.now) parent.now }
{
    for j in 0..2u8 {
        if let Some(part) = piece(first + j, -2) {
            let below = Some((x, part));
            let _leaf = settle_counted(uni, below, Some(parent), ROUNDS, area, counted)?;
        }
    }
    Ok(())
}

// Settles the root, the two boxes below it, and the two below each of these. How often conclusions
// are asked for below the root.
fn asked_below<L: Ledger>(
    alloc: Global,
    uni: &Universe,
    x: ExprId,
    counted: &mut Counted<L>,
) -> Result<u32, AllocError>
    requires { x.0 < length uni.now.nodes }
{
    let mut area = Area::new(alloc);
    let top = settle_counted(uni, None, None, ROUNDS, &mut area, counted)?;
    let root = table_in(top);
    let before = counted.count;
    for k in 0..2u8 {
        if let Some(range) = piece(k, -1) {
            let half = Some((x, range));
            let upper = settle_counted(uni, half, Some(&root), ROUNDS, &mut area, counted)?;
            let parent = table_in(upper);
            settle_pieces(uni, x, &parent, k * 2, &mut area, counted)?;
        }
    }
    Ok(counted.count.saturating_sub(before))
}

// The same, counted anew.
fn asked_by<L: Ledger>(
    alloc: Global,
    uni: &Universe,
    x: ExprId,
    blank: Blank,
) -> Result<u32, AllocError>
    requires blank { (blank.name ≡ L.name) × (blank.parts ≡ L.parts) × (0 < blank.parts) }
    requires variable { x.0 < length uni.now.nodes }
{
    let steps = Steps::<L>::new(blank);
    let mut counted = Counted { steps, count: 0 };
    asked_below(alloc, uni, x, &mut counted)
}

fn asked_in(alloc: Global, uni: &Universe) -> Option<u32> {
    let x = first_variable(uni.dag())?;
    asked_by::<Brand>(alloc, uni, x, Blank::new(1)).ok()
}

// The universe of a script, in which all its hypotheses are assumed.
fn assumed_universe(alloc: Global, script: &Script<'_>) -> Option<Universe> {
    match build(alloc, script) {
        Ok(mut universe) => {
            assume(alloc, &mut universe, script, script.hypotheses()).ok()?;
            Some(universe)
        }
        Err(_) => None,
    }
}

fn asked_of(alloc: Global, script: &Script<'_>) -> Option<u32> {
    let uni = assumed_universe(alloc, script)?;
    asked_in(alloc, &uni)
}

fn asked(alloc: Global, text: &[u8]) -> Option<u32> {
    match parse(alloc, text) {
        Ok(script) => asked_of(alloc, &script),
        Err(_) => None,
    }
}

#[test]
fn sweeps_ask_for_less_than_a_third_of_what_rounds_ask_for(rt: HostRuntime) {
    let by_rounds = asked(rt.alloc(), BY_ROUNDS).expect(&rt, "a universe and memory");
    let by_sweeps = asked(rt.alloc(), BY_SWEEPS).expect(&rt, "a universe and memory");
    holds(&rt, u64::from(by_sweeps), 0 < by_sweeps);
    holds(&rt, u64::from(by_sweeps), by_sweeps < by_rounds / 3);
}
