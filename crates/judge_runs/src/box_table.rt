// The small box sheet's table, as numbers: for each line the count of its numbers, then the numbers.

// How many numbers it has.
const NUMBERS: usize = 205;

// Its states.
pub(crate) const STATES: usize = 9;

// Where the target of the go line `go=1 7` stands.
pub(crate) const GO_TARGET: usize = 167;

pub(crate) const BOX: [u16; NUMBERS] = [
    1, 3, 1, 3, 1, 5, 4, 4, 0, 5, 1, 3, 5, 5, 6, 2, 5, 6, 2, 6, 2, 2, 6, 4, 1, 9, 2, 2, 2, 3, 5, 0,
    3, 6, 0, 0, 0, 1, 2, 3, 2, 0, 1, 2, 4, 2, 2, 6, 5, 6, 0, 1, 0, 1, 2, 3, 5, 1, 0, 0, 1, 2, 5, 2,
    0, 0, 1, 2, 5, 3, 0, 0, 1, 2, 5, 4, 0, 0, 1, 2, 6, 0, 0, 0, 1, 2, 3, 2, 0, 1, 2, 2, 3, 2, 4, 4,
    2, 5, 5, 2, 6, 6, 2, 1, 0, 3, 5, 1, 3, 2, 1, 0, 5, 3, 1, 0, 1, 2, 2, 1, 0, 5, 4, 1, 0, 1, 2, 2,
    5, 5, 6, 0, 2, 0, 1, 2, 3, 5, 1, 1, 0, 1, 2, 5, 3, 0, 0, 1, 2, 5, 4, 0, 0, 1, 2, 6, 0, 0, 0, 1,
    2, 3, 2, 0, 1, 2, 1, 7, 2, 2, 3, 2, 4, 4, 2, 6, 8, 2, 1, 0, 5, 2, 1, 0, 1, 2, 2, 1, 0, 6, 0, 3,
    0, 1, 2, 3, 2, 1, 0, 5, 1, 2, 0, 1, 2,
];
