// Condition 7: in a state and on a token at most one of the go line and the complete items whose set has it.
ghost use Rattle.std.specs.Prelude.{◌<◌};
ghost use Rattle.theory.specs.Table.{Condition7, Complete, state_at as nth_state};
ghost use Rattle.table.specs.Conditions.{LowestBreaker};
ghost use Rattle.table.specs.Conditions.Parts.{NoShift};
ghost use Rattle.table.specs.Items.{item_in, ItemHeld};
ghost use Rattle.table.specs.Places.{table_in, grammar_in};
ghost use Rattle.table.specs.Tests.Tell.{Tells};

use crate::aheads::Noted;
use crate::places::Table;
use crate::sets::has;

// Whether the item at a place is complete.
fn is_complete(t: &Table, at: usize) -> bool
    requires { ItemHeld t.now.numbers.now at }
    ensures { Tells result (Complete (grammar_in t.now.numbers.now) (item_in t.now.numbers.now at)) }
{
    t.after_dot(at) == t.sizes.terms
}

// Whether no go line of a state is on a kind in the set.
fn no_shift(t: &Table, s: usize, set: u64) -> bool
    requires { s < t.now.sizes.states }
    ensures { Tells result (NoShift t.now.sizes.terms (nth_state (table_in t.now.numbers.now) s).gos set) }
{
    let mut at = t.first_go(s);
    for _ in 0..t.go_count(s) {
        let x = t.go_on(at);
        if x < t.sizes.terms && has(set, x) {
            return false;
        }
        at += 3;
    }
    true
}

// Whether a state keeps condition 7.
fn keeps_7(t: &Noted, s: usize) -> bool
    requires { s < t.now.table.now.sizes.states }
    ensures { Tells result (Condition7 (table_in t.now.table.now.numbers.now) s) }
{
    let mut at = t.table.first_item(s);
    let mut set: u64 = 0;
    for _ in 0..t.table.item_count(s) {
        if is_complete(t.table, at) {
            let ahead = t.set_at(at);
            if set & ahead != 0 {
                return false;
            }
            set |= ahead;
        }
        at = t.table.next_item(at);
    }
    no_shift(t.table, s, set)
}

// The lowest state that breaks condition 7, if one does.
pub(crate) fn breaks_7(t: &Noted) -> Option<usize>
    ensures { LowestBreaker (table_in t.now.table.now.numbers.now) 7 result }
{
    (0..t.table.sizes.states).find(|s| !keeps_7(t, *s))
}
