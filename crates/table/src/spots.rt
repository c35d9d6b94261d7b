// Where the items of a state stand, by rule and dot. The states are walked over in their order, and each item's place
// is noted; what stands below the place of the state's first item was noted for an earlier state, or is 0.
ghost use Rattle.std.specs.Prelude.{◌≡◌, true, ◌<◌, ◌≤◌, length, get_or, set};
ghost use Rattle.theory.specs.Table.{state_at as nth_state, Condition2};
ghost use Rattle.lines.specs.Limits.{max_numbers};
ghost use Rattle.table.specs.Places.{table_in};
ghost use Rattle.table.specs.Spots.{cores, core_of, CoreIn, Spots};
ghost use Rattle.table.specs.Tests.Tell.{Tells};

use crate::places::Table;
use lines::Shape;

// How many pairs of a rule, the accept rule too, and a dot there can be.
pub(crate) const CORES: usize = (Shape::MAX_RULES + 1) * (Shape::MAX_RIGHT + 1);

// The number of a rule and a dot.
pub(crate) fn core(rule: usize, dot: usize) -> usize
    requires { CoreIn rule dot }
    ensures { result ≡ core_of rule dot }
{
    rule * (Shape::MAX_RIGHT + 1) + dot
}

// The place that is noted for a rule and a dot.
pub(crate) fn spot_of(spots: &[u16; CORES], rule: usize, dot: usize) -> usize
    requires { CoreIn rule dot }
    ensures { result ≡ get_or spots.now (core_of rule dot) 0 }
{
    usize::from(spots[core(rule, dot)])
}

// Notes the place of an item with a rule and a dot.
fn note_spot(spots: &mut [u16; CORES], rule: usize, dot: usize, at: usize)
    requires { CoreIn rule dot × (at ≤ max_numbers) × (length spots.old ≡ cores) }
    ensures { spots.new ≡ set spots.old (core_of rule dot) at }
{
    let c = core(rule, dot);
    spots[c] = at as u16;
}

// Notes the places of a state's items, and tells whether no two of these agree in rule and dot. It stops where two do.
pub(crate) fn note_items(t: &Table, s: usize, spots: &mut [u16; CORES]) -> bool
    requires { (s < t.now.sizes.states) × Spots t.now.numbers.now t.now.state_at.now s 0 spots.old }
    ensures tells { Tells result (Condition2 (table_in t.now.numbers.now) s) }
    ensures spots { result ≡ true → Spots t.now.numbers.now t.now.state_at.now s (length (nth_state (table_in t.now.numbers.now) s).items) spots.new }
{
    let first = t.first_item(s);
    let mut at = first;
    for _ in 0..t.item_count(s) {
        let rule = t.item_rule(at);
        let dot = t.item_dot(at);
        if first <= spot_of(spots, rule, dot) {
            return false;
        }
        note_spot(spots, rule, dot, at);
        at = t.next_item(at);
    }
    true
}
