//! The boxes of a tree of halves by number: the whole box is 1, and the halves of box n are 2n and
//! 2n + 1. So the number in binary is a 1, and then the path.
use fx_edge::Path;

/// The leaves of the tree, in the order of their paths.
pub const LEAVES: [u8; 8] = [
    0b100, 0b1010, 0b10110, 0b10111, 0b11000, 0b11001, 0b1101, 0b111,
];

/// The number of the box with this path.
pub fn number_of(path: &Path) -> u64 {
    let mut number = 1u64;
    for half in path.numbers() {
        number = number.wrapping_mul(2).wrapping_add(u64::from(*half));
    }
    number
}

/// The path of the box with this number.
pub fn path_of(number: u8) -> Path {
    if number < 2 {
        return Path::root();
    }
    let path = path_of(number / 2);
    if path.len() < 36 {
        path.child(number % 2)
    } else {
        path
    }
}
