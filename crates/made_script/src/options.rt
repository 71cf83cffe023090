// How the made script is proved.
ghost use Rattle.std.specs.Prelude.{◌≡◌};
ghost use Rattle.made_script.specs.Proving.{stated_options};

use proof_options::Options;

/// How the made script is proved, whatever its degree: 64 rounds, no halving, 4,096 boxes, 4
/// workers.
pub fn made_options() -> Options
    ensures { result ≡ stated_options }
{
    Options {
        rounds: 64,
        depth: 0,
        boxes: 4096,
        workers: 4,
    }
}
