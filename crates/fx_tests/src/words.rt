// Words of the command line. Expected lines were worked out by hand.
use crate::runs::words_end;
use command_runs::Status;
use std::test::Fail;

const PRODUCT: &[u8] = b"{ x in [1,2] /\\ y in [3,5] -> x * y in ? }\n";

/// What is printed where the words ask for nothing.
pub const USAGE: &str =
    "usage: fixprove prove SCRIPT [--cert FILE] [--rounds N] [--depth N] [--boxes N] [--workers N] | check SCRIPT CERT | gen N | upgrade CERT NEW | fix PROGRAM SCRIPT | at SCRIPT POINT | trim SCRIPT CERT NEW | batch LIST [--rounds N] [--depth N] [--boxes N] [--workers N]\n";

const WRONG: &[&[&str]] = &[
    &[],
    &["prove"],
    &["a"],
    &["prove", ""],
    &["prove", "-a"],
    &["prove", "--"],
    &["prove", "a", "b"],
    &["Prove", "a"],
    &["help"],
    &["--help"],
    &["--", "prove", "a"],
    &["prove", "a", "--rounds"],
    &["prove", "a", "--rounds", "0"],
    &["prove", "a", "--depth", "03"],
    &["prove", "a", "--rou", "3"],
    &["prove", "a", "-h"],
    &["prove", "a", "--cert"],
    &["prove", "a", "--cert", ""],
    &["prove", "a", "--cert", "a"],
    &["prove", "a", "--cert", "b", "--cert", "b"],
    &["prove", "a", "--rounds", "3", "--rounds", "3"],
    &["check", "a"],
    &["check", "a", "a"],
    &["check", "a", "b", "--rounds", "3"],
    &["check", "a", "b", "--cert", "b"],
    &["gen"],
    &["gen", "0"],
    &["gen", "13"],
    &["gen", "01"],
    &["gen", "1", "--rounds", "3"],
];

#[test]
fn wrong_words_have_the_usage_line(rt: HostRuntime) -> Result<(), Fail> {
    for words in WRONG {
        words_end(&rt, rt.alloc(), *words, PRODUCT, Status::Usage, USAGE)?;
    }
    Ok(())
}

// A name that isn't there has no bytes in a sure folder, and takes none; `-` is a name.
const RIGHT: &[(&[&str], Status, &str)] = &[
    (&["prove", "a"], Status::Answered, "x * y in [3, 5b1]\n"),
    (
        &["prove", "--rounds", "3", "a"],
        Status::Answered,
        "x * y in [3, 5b1]\n",
    ),
    (&["prove", "--cert=b", "a"], Status::WriteFault, ""),
    (&["prove", "b"], Status::Script, "script: Unexpected at 0\n"),
    (&["prove", "-"], Status::Script, "script: Unexpected at 0\n"),
    (
        &["prove", "--", "-a"],
        Status::Script,
        "script: Unexpected at 0\n",
    ),
];

#[test]
fn right_words_name_a_script(rt: HostRuntime) -> Result<(), Fail> {
    for (words, status, line) in RIGHT {
        words_end(&rt, rt.alloc(), *words, PRODUCT, *status, line)?;
    }
    Ok(())
}
