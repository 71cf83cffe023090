//! Paths of boxes, and lists of them.
use crate::equals::{all_equal, equal, holds};
use fx_edge::{Items, Path};
use std::test::Fail;

// The path 2, 5 and its neighbours in the tree.
#[test]
fn a_path_is_read_from_the_root(rt: HostRuntime) {
    let path = Path::root().child(2).child(5);
    equal(
        &rt,
        "the path",
        (path.len(), path.number(0), path.number(1)),
        (2, 2, 5),
    );
    equal(&rt, "parent", path.parent(), Some(Path::root().child(2)));
    equal(
        &rt,
        "the root",
        (Path::root().len(), Path::root().parent()),
        (0, None),
    );
}

// A prefix stands first, and then the first number that differs decides.
#[test]
fn paths_stand_in_the_order_of_words(rt: HostRuntime) {
    let first = Path::root().child(0);
    holds(&rt, "the order", Path::root() < first);
    holds(&rt, "the order", first < first.child(63));
    holds(&rt, "the order", first.child(63) < Path::root().child(1));
    holds(
        &rt,
        "the order",
        Path::root().child(1).child(0) < Path::root().child(2),
    );
}

#[test]
fn a_list_gives_back_what_it_was_made_from(rt: HostRuntime) -> Result<(), Fail> {
    let mut paths = Vec::new(rt.alloc());
    paths.push(Path::root().child(7))?;
    let list = Items::from_vec(paths);
    all_equal(
        &rt,
        "the list",
        list.as_slice(),
        [Path::root().child(7)].as_slice(),
    );
    let back = list.into_vec();
    all_equal(
        &rt,
        "given back",
        back.as_slice(),
        [Path::root().child(7)].as_slice(),
    );
    Ok(())
}
