//! Nodes, read through a folder.
ghost use Rattle.std.specs.Prelude.{◌≡◌, pos, negsuc, ℕ, List, Some, IsErrOf, IfOk};
ghost use Rattle.literal.specs.Spelling.{IsBetween};
ghost use Rattle.literal.specs.Normal.{IsNormal};
ghost use Rattle.expr_dag.specs.Nodes.{IsInLimits};
ghost use Rattle.fx_edge.specs.OnlyReads.{OnlyReads};
ghost use Rattle.cert_bytes.specs.Reading.{direction_from, direction_at, lsb_at, literal_at};
ghost use Rattle.cert_bytes.specs.Reading.{rounding_at, late_node_at, node_by, node_at};
ghost use Rattle.cert_bytes.specs.Pieces.{Gives, AgreesTold, kept_of};
ghost use Rattle.cert_bytes.specs.Calls.{ReadsOn};

use crate::fault::{CertKind, Stop, fault};
use crate::field::Field;
use crate::kept::is_normal;
use crate::source::Source;
use fx_edge::Folder;
use fx_model::{Direction, ExprId, Literal, Node, Rounding};

fn direction_from(byte: u8) -> Option<Direction>
    ensures { result ≡ direction_from byte }
{
    match byte {
        0 => Some(Direction::Zr),
        1 => Some(Direction::Aw),
        2 => Some(Direction::Dn),
        3 => Some(Direction::Up),
        4 => Some(Direction::Od),
        5 => Some(Direction::Ne),
        6 => Some(Direction::No),
        7 => Some(Direction::Nz),
        8 => Some(Direction::Na),
        9 => Some(Direction::Nd),
        10 => Some(Direction::Nu),
        _ => None,
    }
}

impl Source {
    #[tactic(auto, unfolding(crate::specs::Reading::lsb_at))]
    fn lsb<F: Folder>(&mut self, folder: &mut F) -> Result<i16, Stop>
        requires agrees { AgreesTold (F.told folder.old self.old.name) self.old }
        ensures gives { (all : List ℕ) → F.told folder.old self.old.name ≡ Some all
            → Gives (λ x. x) all self.old self.new result lsb_at }
        ensures reads_on { ReadsOn kept_of (F.told folder.new) self.old self.new }
        ensures within { IfOk result (λ lsb. IsBetween (negsuc 511) (pos 512) lsb) }
        ensures only_reads { OnlyReads F.Folder folder.old folder.new (IsErrOf result Stop.Failed) }
    {
        let start = self.at();
        let lsb = i16::read(self, folder)?;
        if lsb < -512 {
            return Err(fault(CertKind::BadNumber, start));
        }
        if lsb > 512 {
            return Err(fault(CertKind::BadNumber, start));
        }
        Ok(lsb)
    }

    #[tactic(auto, unfolding(crate::specs::Reading::late_node_at, crate::specs::Reading::two_at, crate::specs::Reading::one_at, crate::specs::Reading::round_at))]
    fn late_node<F: Folder>(&mut self, folder: &mut F, start: u64, tag: u8) -> Result<Node, Stop>
        requires agrees { AgreesTold (F.told folder.old self.old.name) self.old }
        ensures gives { (all : List ℕ) → F.told folder.old self.old.name ≡ Some all
            → Gives (λ x. x) all self.old self.new result (late_node_at start tag) }
        ensures reads_on { ReadsOn kept_of (F.told folder.new) self.old self.new }
        ensures limits { IfOk result IsInLimits }
        ensures only_reads { OnlyReads F.Folder folder.old folder.new (IsErrOf result Stop.Failed) }
    {
        match tag {
            5 => {
                let parts = <(ExprId, ExprId)>::read(self, folder)?;
                Ok(Node::Mul(parts.0, parts.1))
            }
            6 => {
                let parts = <(ExprId, ExprId)>::read(self, folder)?;
                Ok(Node::Div(parts.0, parts.1))
            }
            7 => Ok(Node::Abs(ExprId::read(self, folder)?)),
            8 => {
                let parts = <(Rounding, ExprId)>::read(self, folder)?;
                Ok(Node::Round(parts.0, parts.1))
            }
            _ => Err(fault(CertKind::BadTag, start)),
        }
    }

    #[tactic(auto, unfolding(crate::specs::Reading::node_by, crate::specs::Reading::var_at, crate::specs::Reading::lit_at, crate::specs::Reading::one_at, crate::specs::Reading::two_at))]
    fn node_by<F: Folder>(&mut self, folder: &mut F, start: u64, tag: u8) -> Result<Node, Stop>
        requires agrees { AgreesTold (F.told folder.old self.old.name) self.old }
        ensures gives { (all : List ℕ) → F.told folder.old self.old.name ≡ Some all
            → Gives (λ x. x) all self.old self.new result (node_by start tag) }
        ensures reads_on { ReadsOn kept_of (F.told folder.new) self.old self.new }
        ensures limits { IfOk result IsInLimits }
        ensures only_reads { OnlyReads F.Folder folder.old folder.new (IsErrOf result Stop.Failed) }
    {
        match tag {
            0 => Ok(Node::Var(u16::read(self, folder)?)),
            1 => Ok(Node::Lit(Literal::read(self, folder)?)),
            2 => Ok(Node::Neg(ExprId::read(self, folder)?)),
            3 => {
                let parts = <(ExprId, ExprId)>::read(self, folder)?;
                Ok(Node::Add(parts.0, parts.1))
            }
            4 => {
                let parts = <(ExprId, ExprId)>::read(self, folder)?;
                Ok(Node::Sub(parts.0, parts.1))
            }
            _ => Ok(self.late_node(folder, start, tag)?),
        }
    }
}

impl Field for Direction {
    ghost read_at = { direction_at };

    #[tactic(auto, unfolding(crate::specs::Reading::direction_at))]
    fn read<F: Folder>(source: &mut Source, folder: &mut F) -> Result<Direction, Stop> {
        let start = source.at();
        let byte = u8::read(source, folder)?;
        match direction_from(byte) {
            Some(direction) => Ok(direction),
            None => Err(fault(CertKind::BadTag, start)),
        }
    }
}

impl Field for Rounding {
    ghost read_at = { rounding_at };

    ghost Keeps = { λ rounding. IsBetween (negsuc 511) (pos 512) rounding.lsb };

    #[tactic(auto, unfolding(crate::specs::Reading::rounding_at))]
    fn read<F: Folder>(source: &mut Source, folder: &mut F) -> Result<Rounding, Stop> {
        let dir = Direction::read(source, folder)?;
        let lsb = source.lsb(folder)?;
        Ok(Rounding { lsb, dir })
    }
}

impl Field for Literal {
    ghost read_at = { literal_at };

    ghost Keeps = { IsNormal };

    #[tactic(auto, unfolding(crate::specs::Reading::literal_at), using(crate::proofs::Normal::normal_in))]
    fn read<F: Folder>(source: &mut Source, folder: &mut F) -> Result<Literal, Stop> {
        let start = source.at();
        let num = u128::read(source, folder)?;
        let exponents = <(i16, i16)>::read(source, folder)?;
        let literal = Literal {
            num,
            two: i32::from(exponents.0),
            ten: i32::from(exponents.1),
        };
        if !is_normal(literal) {
            return Err(fault(CertKind::BadNumber, start));
        }
        Ok(literal)
    }
}

impl Field for Node {
    ghost read_at = { node_at };

    ghost Keeps = { IsInLimits };

    #[tactic(auto, unfolding(crate::specs::Reading::node_at))]
    fn read<F: Folder>(source: &mut Source, folder: &mut F) -> Result<Node, Stop> {
        let start = source.at();
        let tag = u8::read(source, folder)?;
        Ok(source.node_by(folder, start, tag)?)
    }
}
