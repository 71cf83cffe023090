// The hints of a script, behind its formula.
ghost use Rattle.std.specs.Prelude.{◌≡◌, ◌≤◌, ◌<◌, length, All, Err, IfOk};
ghost use Rattle.script_words.specs.Kept.{words_in};
ghost use Rattle.script_shape.specs.Roles.{leaves_of};
ghost use Rattle.script_hints.specs.Drafts.{fresh};
ghost use Rattle.script_hints.specs.Hints.{no_hints};
ghost use Rattle.script_hints.specs.Needs.{HasNormalBounds};
ghost use Rattle.script_hints.specs.Reading as spec;
ghost use Rattle.script_grammar.specs.Steps.{behind_hints};

use expr_dag::DagFault;
use script_hints::hint::HintList;
use script_hints::laws::hints_only_grow;
use script_hints::reader::HintReader;
use script_nodes::reader::NodeReader;
use script_shape::due::Due;
use script_words::list::WordList;
use std::alloc::Global;

/// What the words of hints say, with their roles, and what is known behind them. `Full` only where
/// they have more than 1,024 nodes, and else an `Err` only where memory runs out.
#[tactic(auto, unfolding(script_hints::specs::Reading::read_hints))]
pub fn read_hints<'a>(
    alloc: Global,
    nodes: NodeReader<'a>,
    words: WordList<'_, 'a>,
    roles: &[Due],
) -> Result<(NodeReader<'a>, HintList), DagFault>
    ensures read { IfOk result (λ read. read ≡ behind_hints (spec.read_hints
        (leaves_of roles.now (words_in words.entry))
        (record { reading = nodes.entry; draft = fresh no_hints }))) }
    ensures normal { IfOk result (λ read. All HasNormalBounds read.1.rewrites) }
    ensures full { result ≡ Err DagFault.Full → 1024 < length (spec.read_hints
        (leaves_of roles.now (words_in words.entry))
        (record { reading = nodes.entry; draft = fresh no_hints })).reading.known.nodes }
{
    hints_only_grow();
    let mut hints = HintReader::new(alloc, nodes);
    let mut words = words;
    let mut roles = roles;
    while let [role, later_roles @ ..] = roles {
        let Some((word, later_words)) = words.split_first() else {
            return Ok(hints.into_parts());
        };
        hints.token(*role, word)?;
        words = later_words;
        roles = later_roles;
    }
    Ok(hints.into_parts())
}
