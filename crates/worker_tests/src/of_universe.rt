// Sizes of universes that another program counted: expressions, pairs, instances.
use crate::equals::equal;
use rule_universe::Universe;
use script_grammar::{Script, parse};
use std::alloc::Global;
use std::process::Abort;
use std::test::Fail;
use universe::{UniverseFault, build};

type Sizes = (u16, usize, usize);

fn sizes_in(universe: &Universe) -> Sizes {
    let pairs = universe.pairs().len();
    (universe.dag().len(), pairs, universe.instances().len())
}

fn sizes_of(alloc: Global, script: &Script<'_>) -> Result<Sizes, UniverseFault> {
    match build(alloc, script) {
        Ok(universe) => Ok(sizes_in(&universe)),
        Err(fault) => Err(fault),
    }
}

fn sizes(alloc: Global, text: &[u8]) -> Result<Sizes, UniverseFault> {
    match parse(alloc, text) {
        Ok(script) => sizes_of(alloc, &script),
        Err(_) => Err(UniverseFault::OutOfMemory),
    }
}

// A script, and the sizes of its universe.
const ROWS: &[(&[u8], Result<Sizes, UniverseFault>)] = &[
    (
        b"@rnd = fixed<-4,dn>; y = rnd(x); { x in [0,1] -> y - x in ? }",
        Ok((3, 1, 43)),
    ),
    (
        b"@rnd = fixed<-10,zr>; { x in [1,2] -> rnd(x) -/ x in ? /\\ rnd(rnd(x)) - x in ? }",
        Ok((7, 3, 115)),
    ),
    (
        b"{ a - b in [0,1] /\\ b - c in [0,1] -> a - c in ? /\\ |a| in ? /\\ -a - -b in ? } \
          a ~ b; b ~ c; a ~ c; a ~ a; a/b ~ b/c; -a ~ -b; a*b ~ b*c;",
        Ok((18, 7, 282)),
    ),
    (
        b"{ x in [0,1] -> y in ? } y -> x - z { x <> 0, x < 3, z >= 1 }; | y / x | / 3 -> x;",
        Ok((8, 1, 103)),
    ),
    (
        b"{ a in ? } a ~ b1; a ~ b2; a ~ b3; a ~ b4; a ~ b5; a ~ b6; a ~ b7; a ~ b8; a ~ b9; \
          a ~ b10; a ~ b11; a ~ b12; a ~ b13; a ~ b14; a ~ b15; a ~ b16; a ~ b17; a ~ b18; \
          a ~ b19; a ~ b20; a ~ b21; a ~ b22; a ~ b23; a ~ b24; a ~ b25; a ~ b26; a ~ b27; \
          a ~ b28; a ~ b29; a ~ b30; a ~ b31;",
        Ok((993, 31, 12998)),
    ),
    (
        b"{ a in ? } a ~ b1; a ~ b2; a ~ b3; a ~ b4; a ~ b5; a ~ b6; a ~ b7; a ~ b8; a ~ b9; \
          a ~ b10; a ~ b11; a ~ b12; a ~ b13; a ~ b14; a ~ b15; a ~ b16; a ~ b17; a ~ b18; \
          a ~ b19; a ~ b20; a ~ b21; a ~ b22; a ~ b23; a ~ b24; a ~ b25; a ~ b26; a ~ b27; \
          a ~ b28; a ~ b29; a ~ b30; a ~ b31; a ~ b32;",
        Err(UniverseFault::ExprLimit),
    ),
];

fn sizes_are(rt: &impl Abort, alloc: Global, text: &[u8], wanted: Result<Sizes, UniverseFault>) {
    equal(rt, text.len() as u64, sizes(alloc, text), wanted);
}

#[test]
fn universes_have_their_sizes(rt: HostRuntime) {
    for (text, wanted) in ROWS {
        sizes_are(&rt, rt.alloc(), *text, *wanted);
    }
}
