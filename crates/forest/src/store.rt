// The free store: nodes that no tree of the forest has. Free trees are linked through their roots, from node 0's word
// FREE on; the nodes from node 0's word UNUSED on were never used. A tree is freed in one go, whatever its size: its
// nodes are taken apart when they are taken.
ghost use Rattle.std.specs.Prelude.{◌≡◌, ◌≤◌, length};
ghost use Rattle.forest.specs.Words.{Inside, max_words};
ghost use Rattle.forest.specs.Pools.{pushed, dropped};
ghost use Rattle.forest.specs.Takes.{SomeLeft, Takes};

use crate::words::{CHILD, FREE, LINK, NEXT, UNUSED, get, put};

// The tree at x, if there is one, goes on the free list with all that lies below and beside it.
pub fn push(room: &mut [u32], x: usize)
    requires { Inside room.old x × (length room.old ≤ max_words) }
    ensures { room.new ≡ pushed room.old x }
{
    if x == 0 {
        return;
    }
    let h = get(room, 0, FREE);
    put(room, x, LINK, h);
    put(room, 0, FREE, x);
}

// Node x alone goes on the free list.
pub fn drop_one(room: &mut [u32], x: usize)
    requires { Inside room.old x × (length room.old ≤ max_words) }
    ensures { room.new ≡ dropped room.old x }
{
    put(room, x, CHILD, 0);
    put(room, x, NEXT, 0);
    push(room, x);
}

// A node that no tree has: the first free tree's root, or the first that was never used.
pub fn take(room: &mut [u32]) -> usize
    requires { SomeLeft room.old }
    ensures { Takes room.old result room.new }
{
    let h = get(room, 0, FREE);
    if h == 0 {
        let p = get(room, 0, UNUSED);
        put(room, 0, UNUSED, p + 1);
        return p;
    }
    let l = get(room, h, LINK);
    let c = get(room, h, CHILD);
    let n = get(room, h, NEXT);
    put(room, 0, FREE, l);
    push(room, c);
    push(room, n);
    h
}
