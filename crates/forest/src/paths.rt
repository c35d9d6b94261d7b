// Two forests, given by their paths, joined in a room and printed: what `join` does, to be seen from outside.
// Paths are entries: a state's is one more than it is, from the root down, and a 0 stands between two paths.
ghost use Rattle.std.specs.Prelude.{◌≡◌, length};
ghost use Rattle.forest.specs.Words.{at};
ghost use Rattle.forest.specs.Joins.{SomeTwo, Joins};
ghost use Rattle.forest.specs.Longs.{SomePlenty, Asides};
ghost use Rattle.forest.specs.Held.{SomeExtend, Merges};
ghost use Rattle.forest.specs.Plants.{planted};
ghost use Rattle.forest.specs.Prints.{SomePrint, Prints, RoomFor, shown, JoinsInto};

use crate::Forest;
use crate::rows::meant;
use crate::steps::settle;
use crate::store::take;
use crate::trees::{join, lay};
use crate::words::{ASIDE, CHILD, NEXT, ROOTS, STATE, get};
use lines::Shape;

// The words of a room for two forests of the most entries, a node for each.
const WORDS: usize = Shape::STRIDE * (2 * Shape::MAX_TAIL + 1);

// The trees at x are merged with those set aside.
fn hang(room: &mut [u32], x: usize)
    requires { SomeTwo room.old 0 2 x (at room.old 0 2) }
    ensures { Joins room.old 0 2 x (at room.old 0 2) room.new }
{
    let y = get(room, 0, ASIDE);
    join(room, 0, ASIDE, x, y);
}

// The forest of the paths is made and set aside: node 0's word ASIDE led to none. Each path grows from its lowest state
// up.
fn plant(room: &mut [u32], paths: &[u16])
    requires { SomePlenty room.old paths.now × (at room.old 0 2 ≡ 0) }
    ensures { Asides room.old paths.now (planted paths.now) (length paths.now) room.new }
{
    let mut x = 0;
    for i in (0..paths.len()).rev() {
        if let Some(state) = meant(paths[i]) {
            let p = take(room);
            lay(room, p, state, x);
            x = p;
        } else {
            hang(room, x);
            x = 0;
        }
    }
    hang(room, x);
}

// The forest of the paths is merged into the one that the room holds.
fn graft(room: &mut [u32], paths: &[u16])
    requires { SomeExtend room.old paths.now }
    ensures { Merges room.old paths.now (planted paths.now) room.new }
{
    plant(room, paths);
    settle(room);
}

// The trees at x are printed from place n on. The answer is the place after the print.
fn print(room: &[u32], x: usize, out: &mut [usize], n: usize) -> usize
    requires { SomePrint room.now x out.old n }
    ensures { Prints room.now x out.old n out.new result }
{
    let mut a = x;
    let mut k = n;
    while a != 0 {
        out[k] = get(room, a, STATE) + 1;
        let c = get(room, a, CHILD);
        k = print(room, c, out, k + 1);
        a = get(room, a, NEXT);
    }
    out[k] = 0;
    k + 1
}

// Two forests joined in a room that has nodes enough, and the print of what the room holds then.
fn merge(room: &mut [u32], first: &[u16], second: &[u16], out: &mut [usize])
    requires { RoomFor room.old first.now second.now out.old }
    ensures { out.new ≡ shown first.now second.now out.old }
{
    Forest::empty(room);
    graft(room, first);
    graft(room, second);
    let x = get(room, 0, ROOTS);
    print(room, x, out, 0);
}

// The forests of two lists of paths are joined and the join is printed. Refused are lists with more entries than a tail
// has tokens, and a slice with too few places for the print of as many nodes as there are entries.
// There is one kind of refusal, so the answer is a bool.
pub fn joined(first: &[u16], second: &[u16], out: &mut [usize]) -> bool
    ensures { JoinsInto first.now second.now out.old result out.new }
{
    if Shape::MAX_TAIL < first.len() {
        return false;
    }
    if Shape::MAX_TAIL < second.len() {
        return false;
    }
    if out.len() <= 2 * (first.len() + second.len()) {
        return false;
    }
    let mut room = [0u32; WORDS];
    merge(&mut room, first, second, out);
    true
}
