// Trees of the room, by their places: merged, grown from, chosen from, and made of one node each. A list of trees is
// the place of its first root; the trees beside it follow by NEXT, in rising order of state. A loop over a list goes
// from link to link, as far as the link that is 0: there is no index to count.
// Calls go as deep as trees are, and never along trees side by side.
ghost use Rattle.std.specs.Prelude.{◌≡◌, ◌≤◌, ◌<◌, length};
ghost use Rattle.forest.specs.Words.{at, Inside, max_words};
ghost use Rattle.forest.specs.Joins.{SomeTwo, Joins, SomePair, Meets, Passed};
ghost use Rattle.forest.specs.Grows.{SomeSource, Grows, GrowsTold, rooted};
ghost use Rattle.forest.specs.Picks.{SomeLinked, PicksOne};
ghost use Rattle.forest.specs.Longs.{SomePlenty, Spreads};

use crate::rows::meant;
use crate::store::{drop_one, push, take};
use crate::words::{ASIDE, CHILD, NEXT, ROOTS, STATE, get, put};

// The lists of trees at x and y are merged, and the word of node `to` leads to the result. What drops out goes on the
// free list.
#[cycle(join_meet)]
pub fn join(room: &mut [u32], to: usize, word: usize, x: usize, y: usize)
    requires { SomeTwo room.old to word x y }
    ensures { Joins room.old to word x y room.new }
{
    let mut d = to;
    let mut j = word;
    let mut a = x;
    let mut b = y;
    while a != 0 {
        if b == 0 {
            put(room, d, j, a);
            return;
        }
        let s = get(room, a, STATE);
        let t = get(room, b, STATE);
        if s < t {
            let n = get(room, a, NEXT);
            put(room, d, j, a);
            d = a;
            a = n;
        } else if t < s {
            let n = get(room, b, NEXT);
            put(room, d, j, b);
            d = b;
            b = n;
        } else {
            let n = get(room, a, NEXT);
            let m = get(room, b, NEXT);
            put(room, d, j, a);
            meet(room, a, b);
            d = a;
            a = n;
            b = m;
        }
        j = NEXT;
    }
    put(room, d, j, b);
}

// Nodes a and b of equal state become one: a's children are merged with b's; if either has none, there are none. Node b
// goes on the free list, and the children that are not kept.
#[cycle(join_meet)]
fn meet(room: &mut [u32], a: usize, b: usize)
    requires { SomePair room.old a b }
    ensures { Meets room.old a b room.new }
{
    let c = get(room, a, CHILD);
    let e = get(room, b, CHILD);
    drop_one(room, b);
    if c == 0 {
        push(room, e);
        return;
    }
    if e == 0 {
        put(room, a, CHILD, 0);
        push(room, c);
        return;
    }
    join(room, a, CHILD, c, e);
}

// A place in the list of roots: the word of the node that leads to the rest, and the rest.
#[derive(Clone, Copy)]
struct Place {
    node: usize,
    word: usize,
    rest: usize,
}

// The place in the list of roots where the tree at p, of state s, is to go: behind the roots of lower states.
fn place_of(room: &[u32], p: usize, s: usize) -> Place
    requires { SomeTwo room.now 0 1 (at room.now 0 1) p × (0 < p) × (at room.now p 0 ≡ s) }
    ensures { Passed room.now p result.node result.word result.rest }
{
    let mut place = Place {
        node: 0,
        word: ROOTS,
        rest: get(room, 0, ROOTS),
    };
    while place.rest != 0 {
        if s <= get(room, place.rest, STATE) {
            return place;
        }
        place = Place {
            node: place.rest,
            word: NEXT,
            rest: get(room, place.rest, NEXT),
        };
    }
    place
}

// The tree at p, of state s, is merged into the forest.
fn insert(room: &mut [u32], p: usize, s: usize)
    requires { SomeTwo room.old 0 1 (at room.old 0 1) p × (0 < p) × (at room.old p 0 ≡ s) }
    ensures { Joins room.old 0 1 (at room.old 0 1) p room.new }
{
    let place = place_of(room, p, s);
    if place.rest == 0 {
        put(room, place.node, place.word, p);
        return;
    }
    join(room, place.node, place.word, place.rest, p);
}

// Node p becomes a root of state s above the list at x.
pub fn lay(room: &mut [u32], p: usize, s: usize, x: usize)
    requires { Inside room.old p × (length room.old ≤ max_words) × (s < 4294967296) × (x < 4294967296) }
    ensures { room.new ≡ rooted room.old p s x }
{
    put(room, p, STATE, s);
    put(room, p, CHILD, x);
    put(room, p, NEXT, 0);
}

// The tree at a, which has none beside it, gets the row's target for its state as new root and is merged into the
// forest; if there is no target, the tree goes.
fn sprout(room: &mut [u32], row: &[u16], a: usize)
    requires { SomeSource room.old row.now a × (0 < a) × (at room.old a 2 ≡ 0) }
    ensures { Grows room.old row.now 0 a room.new }
{
    let s = get(room, a, STATE);
    let Some(target) = meant(row[s]) else {
        push(room, a);
        return;
    };
    let p = take(room);
    lay(room, p, target, a);
    insert(room, p, target);
}

// The trees whose roots are `depth` nodes below the list at x get new roots and are merged into the forest; the nodes
// above them go. The answer is whether some path down from the list ended above that depth.
pub fn grow(room: &mut [u32], row: &[u16], depth: usize, x: usize) -> bool
    requires { SomeSource room.old row.now x }
    ensures { GrowsTold room.old row.now depth x room.new result }
{
    let mut long = false;
    let mut a = x;
    while a != 0 {
        let n = get(room, a, NEXT);
        if depth == 0 {
            put(room, a, NEXT, 0);
            sprout(room, row, a);
        } else {
            let c = get(room, a, CHILD);
            drop_one(room, a);
            if c == 0 {
                long = true;
            } else {
                long |= grow(room, row, depth - 1, c);
            }
        }
        a = n;
    }
    long
}

// A root that reduces, and the rule by which it does.
#[derive(Clone, Copy)]
pub struct Pick {
    pub root: usize,
    pub rule: usize,
}

// The lowest root that reduces, taken out of the forest, if there is one.
pub fn choose(room: &mut [u32], acts: &[u16]) -> Option<Pick>
    requires { SomeLinked room.old acts.now 0 1 }
    ensures { PicksOne room.old acts.now room.new result }
{
    let mut d = 0;
    let mut j = ROOTS;
    let mut a = get(room, 0, ROOTS);
    while a != 0 {
        let s = get(room, a, STATE);
        let n = get(room, a, NEXT);
        if let Some(rule) = meant(acts[s]) {
            put(room, d, j, n);
            put(room, a, NEXT, 0);
            return Some(Pick { root: a, rule });
        }
        d = a;
        j = NEXT;
        a = n;
    }
    None
}

// The one-node trees of the row's targets, merged, set aside: node 0's word ASIDE led to none.
// By index: the invariant speaks of the place, and not of how many entries came.
pub fn spread(room: &mut [u32], row: &[u16])
    requires { SomePlenty room.old row.now × (at room.old 0 2 ≡ 0) }
    ensures { Spreads room.old row.now 0 (length row.now) room.new }
{
    for i in (0..row.len()).rev() {
        if let Some(target) = meant(row[i]) {
            let p = take(room);
            lay(room, p, target, 0);
            let r = get(room, 0, ASIDE);
            join(room, 0, ASIDE, p, r);
        }
    }
}
