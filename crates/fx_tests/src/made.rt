// A script that the program makes has one answer.
use crate::runs::words_end;
use command_runs::Status;
use std::test::Fail;

// As another program answers, a plain reading of the definitions.
const LINE: &str = "gen 12: 65 boxes, [-3b-10, 0]\n";

#[test]
fn a_made_script_has_the_same_line_twice(rt: HostRuntime) -> Result<(), Fail> {
    for _ in 0..2u8 {
        words_end(&rt, rt.alloc(), &["gen", "12"], b"", Status::Answered, LINE)?;
    }
    Ok(())
}
