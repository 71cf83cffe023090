//! The checker as a chain that takes one item after the other.
ghost use Rattle.std.specs.Prelude.{◌≡◌, ◌↔◌, ◌<◌, false, length, IfOk, IsNone, IfSome, IsTrue};
ghost use Rattle.expr_dag.specs.Nodes.{IsInLimits};
ghost use Rattle.cert_bytes.specs.declared.item.Item.TheVariants as item;
ghost use Rattle.cert_bytes.specs.Certificates.{HasSpelling};
ghost use Rattle.cert_bytes.specs.Due.{is_of_root, is_end};
ghost use Rattle.cert_checker.specs.Faults.{IsJudged, JudgesContent, HasCases, cases_told};
ghost use Rattle.cert_checker.specs.Standing.{Standing, begun, ChangesByContent, Changes, Takes};
ghost use Rattle.cert_checker.specs.Standing.{HasRoom, left};

use crate::conclude::Sources;
use crate::cuts::Cuts;
use crate::fault::{CheckFault, TakeStop};
use crate::judge::{judge_cut, judge_dead, judge_leaf, judge_step};
use crate::lines::{Lines, add_leaf, no_lines};
use crate::nodes::{judge_count, judge_mark, judge_marks, take_node};
use crate::open::{OpenCut, OpenSteps};
use crate::subject::Subject;
use cert_bytes::{Item, StepRow};
use dyadic::Points;
use expr_dag::Dag;
use facts::{Fact, HintMark};
use fx_edge::Items;
use fx_model::{ExprId, Node};
use goals::Line;
use std::alloc::{AllocError, Global};
use std::marker::Model;

/// A checker that has taken some items. It keeps the steps of the open sections alone.
#[derive(Drop)]
pub struct Chain {
    subject: Subject,
    nodes: Dag,
    marked: u16,
    steps: OpenSteps,
    section: u64,
    cuts: Cuts,
    case: usize,
    begun: bool,
    lines: Vec<Line>,
    ended: bool,
    fault: Option<CheckFault>,
    // room for the premises of one step
    premises: Vec<Fact>,
}

impl Model for Chain {
    ghost use Rattle.std.specs.Prelude.{◌≤◌, ◌<◌, length};
    ghost use Rattle.cert_checker.specs.Standing.{Standing};
    ghost use Rattle.cert_checker.specs.Own.{Agrees};
    ghost use Rattle.cert_checker.specs.contracts.subject.Subject as subject_type;
    ghost use Rattle.cert_checker.specs.contracts.open.Citable as citable_type;
    ghost use Rattle.cert_checker.specs.contracts.open.OpenCut as cut_type;
    ghost use Rattle.goals.specs.contracts.line.Line as line_type;
    ghost use Rattle.cert_checker.specs.contracts.fault.CheckFault as fault_type;
    ghost use Rattle.fx_model.specs.contracts.Node as node_type;
    ghost use Rattle.std.specs.Coded.{codes};

    ghost Value = { Standing };

    ghost coded = { Prim.hlevel (
      codes,
      subject_type.the_row.coded,
      citable_type.the_row.coded,
      cut_type.the_row.coded,
      line_type.the_row.coded,
      fault_type.the_row.coded,
      node_type.the_row.coded,
    ) };

    ghost view = { λ c. record {
      subject = c.subject;
      context = record {
        nodes = c.nodes;
        marked = c.marked;
        steps = c.steps.rows;
        next = c.steps.next;
        section = c.section;
        cuts = c.cuts;
        case = c.case;
        begun = c.begun;
        lines = c.lines.items;
        ended = c.ended;
      };
      fault = c.fault;
    } };

    ghost invariant = { λ c. Agrees c.subject.nodes c.nodes × (length c.subject.goals < 65535)
        × (length c.subject.marks < 65535) × (c.marked ≤ length c.subject.marks)
        × (c.case ≤ c.section) };
}

fn is_of_root(item: &Item) -> bool
    ensures { result ≡ is_of_root item.now }
{
    matches!(
        item,
        Item::Cases(_) | Item::Step(_) | Item::Cut(_, _) | Item::Leaf(_) | Item::Dead(_)
    )
}

// How many root sections follow where the sections begin with the item.
fn cases_told(item: &Item) -> u8
    ensures { result ≡ cases_told item.now }
{
    match item {
        Item::Cases(count) => *count,
        _ => 1,
    }
}

fn is_end(item: &Item) -> bool
    ensures { result ≡ is_end item.now }
{
    matches!(item, Item::End)
}

impl Chain {
    /// A chain that has taken nothing.
    pub fn new(alloc: Global, subject: Subject) -> Result<Chain, AllocError>
        requires goals { length subject.goals < 65535 }
        requires marks { length subject.marks < 65535 }
        ensures { IfOk result (λ chain. chain ≡ begun subject) }
    {
        let lines = no_lines(alloc, subject.goals.as_slice())?;
        Ok(Chain {
            subject,
            nodes: Dag::new(alloc),
            marked: 0,
            steps: OpenSteps::new(alloc),
            section: 0,
            cuts: Cuts::new(alloc),
            case: 0,
            begun: false,
            lines,
            ended: false,
            fault: None,
            premises: Vec::new(alloc),
        })
    }

    /// Takes the next item. The first fault is answered, and answered again from then on. After
    /// lack of memory nothing has changed.
    pub fn take(&mut self, item: &Item) -> Result<(), TakeStop>
        requires room { HasRoom self.old }
        requires spelled { HasSpelling item.now }
        ensures { Takes self.old item.now result self.new }
    {
        if let Some(fault) = self.fault {
            return Err(TakeStop::Check(fault));
        }
        match self.take_item(item) {
            Ok(()) => {
                self.begun = is_of_root(item) || self.begun;
                self.ended = is_end(item);
                Ok(())
            }
            Err(TakeStop::Check(fault)) => {
                self.fault = Some(fault);
                Err(TakeStop::Check(fault))
            }
            Err(TakeStop::OutOfMemory) => Err(TakeStop::OutOfMemory),
        }
    }

    /// How many steps of open sections there are.
    pub fn entries(&self) -> u64
        ensures { result ≡ length self.now.context.steps }
    {
        self.steps.len() as u64
    }

    /// What the leaves show of each goal; `None` exactly where the last item taken wasn't the end.
    pub fn lines(&self) -> Option<&[Line]>
        ensures none { IsNone result ↔ (self.now.context.ended ≡ false) }
        ensures lines { IfSome result (λ lines. lines.now ≡ self.now.context.lines) }
    {
        if self.ended {
            Some(self.lines.as_slice())
        } else {
            None
        }
    }

    /// Whether the last item taken was the end.
    pub fn is_ended(&self) -> bool
        ensures { result ≡ self.now.context.ended }
    {
        self.ended
    }

    /// What the leaves show of each goal, with the marks of the subject.
    pub fn into_lines(self) -> Lines
        ensures { result ≡ record { rows = self.context.lines; marks = self.subject.marks } }
    {
        let Chain { subject, lines, .. } = self;
        let Subject { marks, .. } = subject;
        Lines {
            rows: Items::from_vec(lines),
            marks,
        }
    }

    // Whether the step is concluded. It writes to the room for premises alone.
    fn judge(&mut self, row: &StepRow) -> Result<(), TakeStop>
        ensures judged { IsJudged
            (JudgesContent self.old.subject self.old.context (item.Step row.now)) result }
        ensures same { self.new ≡ self.old }
    {
        let sources = Sources {
            subject: &self.subject,
            case: self.case,
            nodes: &self.nodes,
            cuts: &self.cuts,
        };
        judge_step(&sources, &self.steps, row, &mut self.premises)
    }

    fn take_step(&mut self, row: &StepRow) -> Result<(), TakeStop>
        requires { HasRoom self.old }
        ensures { ChangesByContent self.old (item.Step row.now) result self.new }
    {
        if let Err(stop) = self.judge(row) {
            return Err(stop);
        }
        self.steps.push(row.fact)?;
        Ok(())
    }

    fn take_cut(&mut self, var: ExprId, points: &Points) -> Result<(), TakeStop>
        requires { HasRoom self.old }
        ensures { ChangesByContent self.old (item.Cut var points.now) result self.new }
    {
        if let Err(stop) = judge_cut(&self.nodes, self.cuts.len(), self.section, var) {
            return Err(stop);
        }
        self.cuts.push(OpenCut {
            var,
            points: *points,
            entered: 1,
            around: self.steps.len(),
        })?;
        self.section += 1;
        Ok(())
    }

    // The open section ends.
    fn leave(&mut self)
        requires { HasRoom self.old }
        ensures { self.new ≡ left self.old }
    {
        self.cuts.leave();
        self.steps.cut_back(self.cuts.around());
        if self.cuts.len() == 0 {
            self.case += 1;
        }
        self.section += 1;
    }

    fn take_leaf(&mut self, refs: &[u64]) -> Result<(), TakeStop>
        requires { HasRoom self.old }
        ensures { ChangesByContent self.old (item.Leaf refs.now) result self.new }
    {
        if let Err(stop) = judge_leaf(
            &self.steps,
            self.subject.goals.as_slice(),
            self.section,
            refs,
        ) {
            return Err(stop);
        }
        add_leaf(&mut self.lines, &self.steps, refs);
        self.leave();
        Ok(())
    }

    fn take_dead(&mut self, step: u64) -> Result<(), TakeStop>
        requires { HasRoom self.old }
        ensures { ChangesByContent self.old (item.Dead step) result self.new }
    {
        if let Err(stop) = judge_dead(&self.steps, self.section, step) {
            return Err(stop);
        }
        self.leave();
        Ok(())
    }

    fn take_node(&mut self, node: Node) -> Result<(), TakeStop>
        requires { IsInLimits node }
        ensures { ChangesByContent self.old (item.Node node) result self.new }
    {
        let taken = take_node(
            &self.subject.nodes,
            self.subject.variables,
            &mut self.nodes,
            node,
        );
        if let Err(stop) = taken {
            return Err(stop);
        }
        Ok(())
    }

    fn take_mark(&mut self, mark: HintMark) -> Result<(), TakeStop>
        ensures { ChangesByContent self.old (item.Mark mark) result self.new }
    {
        if let Err(stop) = judge_mark(self.subject.marks.as_slice(), self.marked, mark) {
            return Err(stop);
        }
        self.marked += 1;
        Ok(())
    }

    fn take_count(&mut self, count: u16) -> Result<(), TakeStop>
        ensures { ChangesByContent self.old (item.Nodes count) result self.new }
    {
        if let Err(stop) = judge_count(&self.subject.nodes, count) {
            return Err(stop);
        }
        Ok(())
    }

    fn take_marks(&mut self, count: u16) -> Result<(), TakeStop>
        ensures { ChangesByContent self.old (item.Marks count) result self.new }
    {
        if let Err(stop) = judge_marks(self.subject.marks.as_slice(), count) {
            return Err(stop);
        }
        Ok(())
    }

    // Takes the item, whatever number of cases it tells.
    fn take_content(&mut self, item: &Item) -> Result<(), TakeStop>
        requires room { HasRoom self.old }
        requires spelled { HasSpelling item.now }
        ensures { ChangesByContent self.old item.now result self.new }
    {
        match item {
            Item::Nodes(count) => self.take_count(*count),
            Item::Node(node) => self.take_node(*node),
            Item::Marks(count) => self.take_marks(*count),
            Item::Mark(mark) => self.take_mark(*mark),
            Item::Cases(_) => Ok(()),
            Item::Step(row) => self.take_step(row),
            Item::Cut(var, points) => self.take_cut(*var, points.points()),
            Item::Leaf(refs) => self.take_leaf(refs.as_slice()),
            Item::Dead(step) => self.take_dead(*step),
            Item::End => Ok(()),
        }
    }

    // Whether the item, where the sections begin with it, tells as many as the script has cases.
    #[inline(always)]
    fn has_cases(&self, item: &Item) -> bool
        ensures { IsTrue result ↔ HasCases self.now.subject self.now.context item.now }
    {
        self.begun
            || !is_of_root(item)
            || usize::from(cases_told(item)) == self.subject.cases.as_slice().len()
    }

    fn take_item(&mut self, item: &Item) -> Result<(), TakeStop>
        requires room { HasRoom self.old }
        requires spelled { HasSpelling item.now }
        ensures { Changes self.old item.now result self.new }
    {
        if !self.has_cases(item) {
            return Err(TakeStop::Check(CheckFault::BadCases(cases_told(item))));
        }
        self.take_content(item)
    }
}
