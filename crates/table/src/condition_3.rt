// Condition 3: an item with dot 0, save state 0's first, has its left side after the dot of an earlier item of its
// state.
ghost use Rattle.std.specs.Prelude.{◌≡◌, ◌+◌, ◌<◌, ◌≤◌};
ghost use Rattle.theory.specs.Table.{Condition3};
ghost use Rattle.table.specs.Conditions.{LowestBreaker};
ghost use Rattle.table.specs.Conditions.Parts.{LeftIn, CalledFor, with_symbol};
ghost use Rattle.table.specs.Items.{item_in, ItemHeld};
ghost use Rattle.table.specs.Places.{table_in, grammar_in};
ghost use Rattle.table.specs.Tests.Tell.{Tells};

use crate::places::Table;
use crate::sets::{has, single};

// Whether the left side of a rule is in the set of nonterminals; that of the accept rule is no nonterminal.
fn left_in(t: &Table, r: usize, set: u64) -> bool
    requires { r ≤ t.now.sizes.rules }
    ensures { Tells result (LeftIn (grammar_in t.now.numbers.now) set r) }
{
    r < t.sizes.rules && has(set, t.left_of(r) - t.sizes.terms - 1)
}

// Whether the k-th item of state s, which stands at a place, may stand there after items with the set of nonterminals
// after their dots.
fn called_for(t: &Table, s: usize, k: usize, at: usize, set: u64) -> bool
    requires { ItemHeld t.now.numbers.now at }
    ensures { Tells result (CalledFor (grammar_in t.now.numbers.now) set s k (item_in t.now.numbers.now at)) }
{
    t.item_dot(at) > 0 || (s == 0 && k == 0) || left_in(t, t.item_rule(at), set)
}

// The set of nonterminals, and the symbol if it is one.
fn with_symbol(terms: usize, set: u64, x: usize) -> u64
    requires { x ≤ terms + 64 }
    ensures { result ≡ with_symbol terms set x }
{
    if x <= terms {
        set
    } else {
        set | single(x - terms - 1)
    }
}

// Whether a state keeps condition 3.
fn keeps_3(t: &Table, s: usize) -> bool
    requires { s < t.now.sizes.states }
    ensures { Tells result (Condition3 (table_in t.now.numbers.now) s) }
{
    let mut at = t.first_item(s);
    let mut set: u64 = 0;
    for k in 0..t.item_count(s) {
        if !called_for(t, s, k, at, set) {
            return false;
        }
        set = with_symbol(t.sizes.terms, set, t.after_dot(at));
        at = t.next_item(at);
    }
    true
}

// The lowest state that breaks condition 3, if one does.
pub(crate) fn breaks_3(t: &Table) -> Option<usize>
    ensures { LowestBreaker (table_in t.now.numbers.now) 3 result }
{
    (0..t.sizes.states).find(|s| !keeps_3(t, *s))
}
