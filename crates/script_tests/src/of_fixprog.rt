//! Programs with their scripts or first faults, worked out by hand.

use crate::equals::holds;
use fixprog::fault::{ProgFault, ProgKind, ProgStop};
use fixprog::turn::turn;
use std::alloc::Global;

fn is_turned(alloc: Global, text: &[u8], script: &str) -> bool {
    match turn(alloc, text) {
        Ok(turned) => turned.text.as_str() == script,
        Err(_) => false,
    }
}

fn is_fault(alloc: Global, text: &[u8], kind: ProgKind, at: u32) -> bool {
    match turn(alloc, text) {
        Err(ProgStop::Fault(fault)) => fault == ProgFault { kind, at },
        _ => false,
    }
}

#[test]
fn programs_have_their_scripts(rt: HostRuntime) {
    const ROWS: &[(&[u8], &str)] = &[
        (
            b"in x : s16.15 [0,0.5]; y : s16.15 dn = x * x; out y;",
            "y = fixed<-15,dn>(x * x);\n\
             { x in [0, 0.5] /\\ @FIX(x,-15) -> y in [-32768b-15, 32767b-15] /\\ y in ? }\n",
        ),
        (
            b"in x:s016.0[ -1 , +2 ];y:u1.60 nu=-x;z:s60.3 zr=y >> 5;w:s8.8 od=3b2<<0;out x;out w;",
            "y = fixed<-60,nu>(-x);\n\
             z = fixed<-3,zr>(y * 1b-5);\n\
             w = fixed<-8,od>(3b2 * 1b0);\n\
             { x in [-1, +2] /\\ @FIX(x,0) -> y in [0b-60, 1b-60] /\\ \
             z in [-576460752303423488b-3, 576460752303423487b-3] /\\ w in [-128b-8, 127b-8] /\\ \
             x in ? /\\ w in ? }\n",
        ),
        (
            b"in x : s4.2 [1,1]; y : s4.2 dn = x >> 0; out y; # c",
            "y = fixed<-2,dn>(x * 1b-0);\n\
             { x in [1, 1] /\\ @FIX(x,-2) -> y in [-8b-2, 7b-2] /\\ y in ? }\n",
        ),
        (
            b"y:u3.1 ne=3;out y;",
            "y = fixed<-1,ne>(3);\n{ y in [0b-1, 7b-1] /\\ y in ? }\n",
        ),
    ];
    for (text, script) in ROWS {
        holds(&rt, *text, is_turned(rt.alloc(), *text, script));
    }
}

#[test]
fn texts_have_their_faults(rt: HostRuntime) {
    const ROWS: &[(&[u8], ProgKind, u32)] = &[
        // one of each kind
        (b"in x\xff", ProgKind::NotText, 4),
        (b"in x:u1.0[0,1];out x;!", ProgKind::BadToken, 21),
        (b"in x:u1.0[0,1];", ProgKind::Unexpected, 15),
        (b"in x:u61.0[9,0];out x;", ProgKind::BadFormat, 5),
        (b"out x;", ProgKind::Undefined, 4),
        (b"in x:u1.0[0,1];x:u1.0 dn=x;out x;", ProgKind::NameUsed, 15),
        (b"in x : s16.15 [0,1]; out x;", ProgKind::BadRange, 17),
        (b"y:u1.0 dn=1e-99;out y;", ProgKind::LiteralLimit, 10),
        (b"y:u1.0 ff=1;out y;", ProgKind::BadDirection, 7),
        (b"y:u1.0 dn=1<<64;out y;", ProgKind::Limit, 13),
        // one past a limit
        (b"in x:u0.1[0,0];out x;", ProgKind::BadFormat, 5),
        (b"in x:u1.61[0,0];out x;", ProgKind::BadFormat, 5),
        (b"in x:s1.0[-1,1];out x;", ProgKind::BadRange, 13),
        (b"in x:u4.2[-0.25,3.75];out x;", ProgKind::BadRange, 10),
        (b"in x:u4.2[0,3.8];out x;", ProgKind::BadRange, 12),
        (
            b"in xxxxxxxxxxxxxxxxxxxxxxxxxxxxxxxxx:u1.0[0,1];out y;",
            ProgKind::Limit,
            3,
        ),
        (
            b"y:u1.0 dn=1234567890123456789012345678901;out y;",
            ProgKind::LiteralLimit,
            10,
        ),
        // of two at one byte, and of two bytes
        (
            b"out xxxxxxxxxxxxxxxxxxxxxxxxxxxxxxxxx;",
            ProgKind::Undefined,
            4,
        ),
        (b"x:s4.2 ff=1+2;out x;y", ProgKind::BadDirection, 7),
        (b"in x:u1.0[1,0];out x;", ProgKind::BadRange, 12),
        // words out of place
        (b"", ProgKind::Unexpected, 0),
        (
            b"in x:u1.0[0,1];y:u1.0 in=x;out y",
            ProgKind::BadDirection,
            22,
        ),
        (b"y:u2.0 dn=y-y;out y;", ProgKind::Undefined, 10),
        (b"in x:u1.0[0,1]$;out x;", ProgKind::Unexpected, 14),
        (b"in x:u1.0[0 \\ ,1];out x;", ProgKind::BadToken, 12),
        (b"x:s4 .2 dn=1;out x;", ProgKind::Unexpected, 2),
        (b"in out:u1.0[0,1];out x;", ProgKind::Unexpected, 3),
        (b"y:u1.0 dn=2*1x;out y;", ProgKind::BadToken, 12),
        (b"y:u1.0 dn=1>>0.5;out y;", ProgKind::Unexpected, 13),
        (
            b"y:u1.0 dn=1;in x:u1.0[0,1];out y;",
            ProgKind::Unexpected,
            12,
        ),
        (b"y:u1.0 dn=1;out y;y", ProgKind::Unexpected, 18),
    ];
    for (text, kind, at) in ROWS {
        holds(&rt, *text, is_fault(rt.alloc(), *text, *kind, *at));
    }
}
