// A table in which two deep trees meet, as numbers: for each line the count of its numbers, then the numbers. Its
// rules are 4 : 0 5, 4 : 2, 5 : 0 4 1 and 5 : 2. Tokens 0 have two readings by turns. On 2 and 1 one of them goes up
// by one node, the two tops are one state from then on, and merging goes down to the lowest node.

pub(crate) const TURNS: &[u16] = &[
    1, 3, 1, 2, 1, 4, 3, 4, 0, 5, 2, 4, 2, 4, 5, 0, 4, 1, 2, 5, 2, 1, 9, 2, 3, 3, 3, 4, 0, 3, 4, 0,
    0, 1, 3, 4, 1, 0, 1, 3, 2, 0, 1, 2, 2, 2, 2, 4, 3, 2, 3, 3, 4, 0, 1, 1, 3, 4, 2, 0, 1, 3, 4, 3,
    0, 1, 3, 2, 0, 4, 2, 2, 5, 2, 5, 6, 2, 1, 0, 4, 1, 1, 1, 3, 2, 1, 0, 3, 4, 1, 3, 2, 3, 3, 4, 2,
    1, 1, 3, 4, 0, 0, 1, 3, 4, 1, 0, 1, 3, 2, 0, 1, 2, 2, 2, 2, 4, 7, 2, 1, 0, 4, 3, 1, 1, 3, 2, 1,
    0, 4, 0, 2, 1, 3, 2, 1, 1, 4, 2, 2, 1, 3, 2, 1, 8, 2, 1, 0, 4, 2, 3, 1, 3,
];
