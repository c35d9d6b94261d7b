// The forest's own steps on the forest that the room holds: places are hidden but for a tree that was chosen.
ghost use Rattle.forest.specs.Words.{at};
ghost use Rattle.forest.specs.Joins.{SomeTwo};
ghost use Rattle.forest.specs.Held.{SomeShift, Shifts, Settles, SomeExtend, Extends, SomeReduce, ReducesOne};

use crate::trees::{grow, join, spread};
use crate::words::{ASIDE, ROOTS, get, put};

// The shift phase: a root that shifts gets its target as new root above it, and the other trees go.
pub fn shift(room: &mut [u32], row: &[u16])
    requires { SomeShift room.old row.now }
    ensures { Shifts room.old row.now room.new }
{
    let x = get(room, 0, ROOTS);
    put(room, 0, ROOTS, 0);
    grow(room, row, 0, x);
}

// The trees set aside are merged into the forest.
pub fn settle(room: &mut [u32])
    requires { SomeTwo room.old 0 1 (at room.old 0 1) (at room.old 0 2) }
    ensures { Settles room.old room.new }
{
    let x = get(room, 0, ROOTS);
    let y = get(room, 0, ASIDE);
    join(room, 0, ROOTS, x, y);
    put(room, 0, ASIDE, 0);
}

// The row's one-node trees are merged into the forest.
pub fn extend(room: &mut [u32], row: &[u16])
    requires { SomeExtend room.old row.now }
    ensures { Extends room.old row.now room.new }
{
    spread(room, row);
    settle(room);
}

// The chosen tree at p is reduced by a rule with `depth` symbols on its right side, whose left side's row is given. The
// answer is whether the reduction is long; then the row's one-node trees are added, if `add`.
pub fn reduce(room: &mut [u32], row: &[u16], depth: usize, p: usize, add: bool) -> bool
    requires { SomeReduce room.old row.now p }
    ensures { ReducesOne room.old row.now depth p add room.new result }
{
    let long = grow(room, row, depth, p);
    if long && add {
        extend(room, row);
    }
    long
}
