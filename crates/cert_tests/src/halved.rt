// The certificate of a tree of 15 boxes, taken item by item: its steps are citable while their
// section is open, so none behind the end.
ghost use Rattle.std.specs.Prelude.{◌≡◌, ◌≤◌, ◌<◌, ◌+◌, length, None, OnOk};
ghost use Rattle.cert_bytes.specs.Pieces.{AgreesTold};
ghost use Rattle.cert_checker.specs.Standing.{HasRoom};

use crate::worked::folder_of;
use cert_bytes::Reader;
use cert_checker::{Chain, CheckStop, Subject};
use fx_edge::Folder;
use script_checker::subject_of;
use script_grammar::{Script, parse};
use std::alloc::Global;
use std::test::Fail;

const SCRIPT: &str = "{ x in [0,1] -> x * (1 - x) in [0,0.3] } x * (1 - x) $ x;";

// Its certificate in version 2, by another program.
const HALVED: [u8; 543] = [
    70, 88, 80, 67, 2, 4, 0, 0, 1, 1, 0, 0, 4, 1, 0, 5, 0, 2, 0, // the head, four nodes, no marks
    1, 100, 0, 1, 0, 0, 0, 0, 0, 2, 0, 0, 0, // step 0
    1, 1, 0, 1, 1, 0, 2, 0, 0, 2, 0, 0, 0, // step 1
    2, 0, 1, 2, 1, // box whole is halved
    1, 102, 0, 1, 0, 0, 0, 0, 0, 2, 1, 1, 2, 0, // step 2
    1, 4, 0, 1, 2, 0, 2, 1, 0, 2, 0, 0, 2, 2, 1, // step 3
    2, 0, 1, 2, 3, // box 0 is halved
    1, 102, 0, 1, 0, 0, 0, 0, 0, 2, 3, 1, 2, 0, // step 4
    1, 6, 0, 1, 3, 0, 0, 0, 0, 2, 3, 0, 2, 1, 2, // step 5
    3, 1, 1, // leaf 00
    1, 102, 0, 1, 0, 0, 2, 3, 0, 2, 1, 1, 4, 0, // step 6
    2, 0, 1, 6, 5, // box 01 is halved
    1, 102, 0, 1, 0, 0, 2, 3, 0, 6, 5, 1, 1, 0, // step 7
    1, 4, 0, 1, 2, 0, 10, 5, 0, 6, 3, 0, 2, 7, 1, // step 8
    1, 6, 0, 1, 3, 0, 10, 9, 0, 18, 9, 0, 2, 2, 1, // step 9
    3, 1, 1, // leaf 010
    1, 102, 0, 1, 0, 0, 6, 5, 0, 2, 1, 1, 4, 0, // step 10
    2, 0, 1, 14, 7, // box 011 is halved
    1, 102, 0, 1, 0, 0, 6, 5, 0, 14, 7, 1, 1, 0, // step 11
    1, 4, 0, 1, 2, 0, 18, 7, 0, 10, 5, 0, 2, 11, 1, // step 12
    1, 6, 0, 1, 3, 0, 54, 13, 0, 70, 13, 0, 2, 2, 1, // step 13
    3, 1, 1, // leaf 0110
    1, 102, 0, 1, 0, 0, 14, 7, 0, 2, 1, 1, 4, 0, // step 14
    1, 4, 0, 1, 2, 0, 2, 1, 0, 18, 7, 0, 2, 14, 1, // step 15
    1, 6, 0, 1, 3, 0, 14, 9, 0, 18, 9, 0, 2, 2, 1, // step 16
    3, 1, 1, // leaf 0111
    1, 102, 0, 1, 0, 0, 2, 1, 0, 2, 0, 1, 17, 0, // step 17
    2, 0, 1, 6, 3, // box 1 is halved
    1, 102, 0, 1, 0, 0, 2, 1, 0, 6, 3, 1, 1, 0, // step 18
    2, 0, 1, 10, 5, // box 10 is halved
    1, 102, 0, 1, 0, 0, 2, 1, 0, 10, 5, 1, 1, 0, // step 19
    2, 0, 1, 18, 7, // box 100 is halved
    1, 102, 0, 1, 0, 0, 2, 1, 0, 18, 7, 1, 1, 0, // step 20
    1, 4, 0, 1, 2, 0, 14, 7, 0, 2, 1, 0, 2, 20, 1, // step 21
    1, 6, 0, 1, 3, 0, 14, 9, 0, 18, 9, 0, 2, 2, 1, // step 22
    3, 1, 1, // leaf 1000
    1, 102, 0, 1, 0, 0, 18, 7, 0, 10, 5, 1, 4, 0, // step 23
    1, 4, 0, 1, 2, 0, 6, 5, 0, 14, 7, 0, 2, 23, 1, // step 24
    1, 6, 0, 1, 3, 0, 54, 13, 0, 70, 13, 0, 2, 2, 1, // step 25
    3, 1, 1, // leaf 1001
    1, 102, 0, 1, 0, 0, 10, 5, 0, 6, 3, 1, 8, 0, // step 26
    1, 4, 0, 1, 2, 0, 2, 3, 0, 6, 5, 0, 2, 26, 1, // step 27
    1, 6, 0, 1, 3, 0, 10, 9, 0, 18, 9, 0, 2, 2, 1, // step 28
    3, 1, 1, // leaf 101
    1, 102, 0, 1, 0, 0, 6, 3, 0, 2, 0, 1, 12, 0, // step 29
    1, 4, 0, 1, 2, 0, 0, 0, 0, 2, 3, 0, 2, 29, 1, // step 30
    1, 6, 0, 1, 3, 0, 0, 0, 0, 2, 3, 0, 2, 2, 1, // step 31
    3, 1, 1, // leaf 11
    6, 15, 32, // the trailer: 15 sections, 32 steps
];

// Reads an item and takes it.
fn turn<F: Folder>(chain: &mut Chain, reader: &mut Reader, folder: &mut F) -> Result<(), CheckStop>
    requires room { HasRoom chain.old }
    requires sound { chain.old.fault ≡ None }
    requires agrees { AgreesTold (F.told folder.old reader.old.ahead.name) reader.old.ahead }
    ensures sound { OnOk result (chain.new.fault ≡ None) }
    ensures steps { OnOk result (chain.new.context.next ≤ chain.old.context.next + 1) }
    ensures sections { OnOk result (chain.new.context.section ≤ chain.old.context.section + 1) }
    ensures agrees { AgreesTold (F.told folder.new reader.new.ahead.name) reader.new.ahead }
{
    let item = reader.next(folder)?;
    chain.take(&item)?;
    Ok(())
}

// How many steps could be cited at most, and how many can be behind the end.
fn citable<F: Folder>(
    chain: &mut Chain,
    reader: &mut Reader,
    folder: &mut F,
) -> Result<(u64, u64), CheckStop>
    requires steps { chain.old.context.next ≡ 0 }
    requires sections { chain.old.context.section ≡ 0 }
    requires sound { chain.old.fault ≡ None }
    requires agrees { AgreesTold (F.told folder.old reader.old.ahead.name) reader.old.ahead }
{
    let mut most = 0u64;
    let mut taken = 0u64;
    'items: while taken < 1000 {
        turn(chain, reader, folder)?;
        taken += 1;
        if chain.is_ended() {
            return Ok((most, chain.entries()));
        }
        most = most.max(chain.entries());
    }
    Err(CheckStop::Failed)
}

// The same of the certificate's bytes, for a subject.
fn citable_for(alloc: Global, subject: Subject) -> Result<(u64, u64), CheckStop>
    requires goals { length subject.goals < 65535 }
    requires marks { length subject.marks < 65535 }
{
    let mut folder = folder_of(alloc, &HALVED, &[], 4096)?;
    let mut reader = Reader::new(alloc, "c")?;
    let mut chain = Chain::new(alloc, subject)?;
    citable(&mut chain, &mut reader, &mut folder)
}

fn citable_of(alloc: Global, script: &Script<'_>) -> Result<(u64, u64), CheckStop> {
    let subject = subject_of(alloc, script)?;
    if subject.goals.as_slice().len() >= 65535 || subject.marks.as_slice().len() >= 65535 {
        return Err(CheckStop::OutOfMemory);
    }
    citable_for(alloc, subject)
}

// Nothing was read and nothing is citable where the text is no script.
fn found(alloc: Global) -> Result<(u64, u64), CheckStop> {
    match parse(alloc, SCRIPT.as_bytes()) {
        Ok(script) => citable_of(alloc, &script),
        Err(_) => Ok((0, 0)),
    }
}

#[test]
fn no_step_is_citable_behind_the_end(rt: HostRuntime) -> Result<(), Fail> {
    // Leaf 0110 may cite its 3 steps, and 2, 2, 1 and 1 of the sections around it.
    assert_eq!(rt; found(rt.alloc())?, (9, 0));
    Ok(())
}
