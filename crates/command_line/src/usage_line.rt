// The line of words that ask for nothing.
ghost use Rattle.std.specs.Prelude.{◌≡◌};
ghost use Rattle.command_line.specs.Usage.{usage_line};

/// The line of words that ask for nothing: the commands with their names and options.
pub fn usage() -> &'static [u8]
    ensures { result.now ≡ usage_line }
{
    "usage: fixprove prove SCRIPT [--cert FILE] [--rounds N] [--depth N] [--boxes N] \
     [--workers N] | check SCRIPT CERT | gen N | upgrade CERT NEW | fix PROGRAM SCRIPT \
     | at SCRIPT POINT | trim SCRIPT CERT NEW \
     | batch LIST [--rounds N] [--depth N] [--boxes N] [--workers N]\n"
        .as_bytes()
}
