//! Texts written out by hand.
use made_script::made_script;
use std::alloc::Global;
use std::process::Abort;
use std::test::Fail;

// The degree, and the text line by line.
const ROWS: &[(u8, [&str; 5])] = &[
    (
        1,
        [
            "@q = fixed<-12,dn>;\n",
            "y q= 48b-6 * x + 11b-6;\n",
            "My = 48b-6 * x + 11b-6;\n",
            "{ x in [0,1] -> y - My in ? }\n",
            "$ x in 64;\n",
        ],
    ),
    (
        2,
        [
            "@q = fixed<-12,dn>;\n",
            "y q= (21b-6 * x + 48b-6) * x + 11b-6;\n",
            "My = (21b-6 * x + 48b-6) * x + 11b-6;\n",
            "{ x in [0,1] -> y - My in ? }\n",
            "$ x in 64;\n",
        ],
    ),
    (
        12,
        [
            "@q = fixed<-12,dn>;\n",
            "y q= (((((((((((7b-6 * x + 34b-6) * x + 61b-6) * x + 24b-6) * x + 51b-6) * x + 14b-6) * x + 41b-6) * x + 4b-6) * x + 31b-6) * x + 58b-6) * x + 21b-6) * x + 48b-6) * x + 11b-6;\n",
            "My = (((((((((((7b-6 * x + 34b-6) * x + 61b-6) * x + 24b-6) * x + 51b-6) * x + 14b-6) * x + 41b-6) * x + 4b-6) * x + 31b-6) * x + 58b-6) * x + 21b-6) * x + 48b-6) * x + 11b-6;\n",
            "{ x in [0,1] -> y - My in ? }\n",
            "$ x in 64;\n",
        ],
    ),
];

// The lines, one behind the other.
fn joined(alloc: Global, lines: &[&str]) -> Result<Vec<u8>, Fail> {
    let mut whole = Vec::new(alloc);
    for line in lines {
        whole.extend_from_slice(line.as_bytes())?;
    }
    Ok(whole)
}

fn is_made(rt: &impl Abort, alloc: Global, n: u8, lines: &[&str]) -> Result<(), Fail> {
    let whole = joined(alloc, lines)?;
    let text = made_script(alloc, n)?;
    assert_eq!(rt; text.as_slice(), whole.as_slice(), "{n}");
    Ok(())
}

#[test]
fn each_number_has_its_made_script(rt: HostRuntime) -> Result<(), Fail> {
    for (n, lines) in ROWS {
        is_made(&rt, rt.alloc(), *n, lines)?;
    }
    Ok(())
}
