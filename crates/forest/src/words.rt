// The words of a room. Every other function reads and writes them by `get` and `put` alone.
// Node x has its words at STRIDE · x. Node 0 is no node: as a link it says "none", and its words are the store's.
ghost use Rattle.std.specs.Prelude.{◌≡◌, ◌≤◌, ◌<◌, length};
ghost use Rattle.forest.specs.Words.{at, poke, Inside, max_words};

use lines::Shape;

// Words are known by numbers, and 0 as a link says "none": the room is lent, as document 01 has it; no heap.
//
// The words of a node: its state, its first child, the next node beside it, and the next free tree if it is the root of
// one.
pub const STATE: usize = 0;

pub const CHILD: usize = 1;

pub const NEXT: usize = 2;

pub const LINK: usize = 3;

// The words of node 0: the first node that was never used, the first root, the first of some trees set aside (none
// between two steps), and the first free tree.
pub const UNUSED: usize = 0;

pub const ROOTS: usize = 1;

pub const ASIDE: usize = 2;

pub const FREE: usize = 3;

// Word i of node x.
pub fn get(room: &[u32], x: usize, i: usize) -> usize
    requires { (i < 4) × Inside room.now x × (length room.now ≤ max_words) }
    ensures { (result ≡ at room.now x i) × (result < 4294967296) }
{
    room[Shape::STRIDE * x + i] as usize
}

// Word i of node x becomes v.
pub fn put(room: &mut [u32], x: usize, i: usize, v: usize)
    requires { (i < 4) × Inside room.old x × (length room.old ≤ max_words) × (v < 4294967296) }
    ensures { room.new ≡ poke room.old x i v }
{
    room[Shape::STRIDE * x + i] = v as u32;
}
