// An instance of the universe, and the place of its target.
ghost use Rattle.std.specs.Prelude.{◌≡◌, ◌<◌, Some, length, slice_get};
ghost use Rattle.facts.specs.declared.instance.Instance.{Instance as Applied};
ghost use Rattle.rule_universe.specs.Places.{IsPlace};

use facts::Instance;
use rule_universe::Universe;

/// The instance with this number, counted from 0.
#[inline(always)]
pub fn instance_at(uni: &Universe, k: usize) -> &Instance
    requires { k < length uni.now.instances }
    ensures { slice_get uni.now.instances k ≡ Some result.now }
{
    &uni.instances()[k]
}

/// The place of its target.
#[inline(always)]
pub(crate) fn target_place(uni: &Universe, k: usize) -> u16
    requires { k < length uni.now.instances }
    ensures { (i : Applied) → slice_get uni.now.instances k ≡ Some i
        → IsPlace (length uni.now.nodes) uni.now.pairs i.target result }
{
    uni.targets()[k]
}
