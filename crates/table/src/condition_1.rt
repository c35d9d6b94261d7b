// Condition 1: how state 0 begins, what follows the accept rule, and that every other state has a dot above 0.
ghost use Rattle.std.specs.Prelude.{◌≡◌, ℕ, [], ◌∷◌, ◌<◌};
ghost use Rattle.theory.specs.Table.{Condition1};
ghost use Rattle.table.specs.Conditions.{LowestBreaker};
ghost use Rattle.table.specs.Conditions.Parts.{SomePasses, SomeMoved, AcceptsEnd};
ghost use Rattle.table.specs.Items.{item_in, ItemHeld};
ghost use Rattle.table.specs.Places.{table_in, grammar_in};
ghost use Rattle.table.specs.Tests.Tell.{Tells};

use crate::places::{Table, number};

// Whether the look-ahead set of the item at a place is the end mark alone.
fn only_end(t: &Table, at: usize) -> bool
    requires { ItemHeld t.now.numbers.now at }
    ensures { Tells result ((item_in t.now.numbers.now at).ahead ≡ (grammar_in t.now.numbers.now).terms ∷ []) }
{
    number(t.numbers, at) == 3 && number(t.numbers, at + 3) == t.sizes.terms
}

// Whether some item of a state passes a test, which gets the item's place.
fn some_item<F: Fn(usize) -> bool>(t: &Table, s: usize, test: F) -> bool
    requires state_in { s < t.now.sizes.states }
    requires callable { (at : ℕ) → ItemHeld t.now.numbers.now at → F.pre test at }
    ensures { SomePasses t.now.numbers.now t.now.state_at.now s (λ at passes. F.post test at passes) result }
{
    let mut at = t.first_item(s);
    for _ in 0..t.item_count(s) {
        if test(at) {
            return true;
        }
        at = t.next_item(at);
    }
    false
}

// Whether some item of a state has a dot above 0.
fn some_moved(t: &Table, s: usize) -> bool
    requires { s < t.now.sizes.states }
    ensures { Tells result (SomeMoved (table_in t.now.numbers.now) s) }
{
    some_item(t, s, |at| t.item_dot(at) > 0)
}

// Whether the end mark alone may follow the accept rule, wherever it stands in an item of a state.
fn accepts_end(t: &Table, s: usize) -> bool
    requires { s < t.now.sizes.states }
    ensures { Tells result (AcceptsEnd (table_in t.now.numbers.now) s) }
{
    !some_item(
        t,
        s,
        |at| t.item_rule(at) == t.sizes.rules && !only_end(t, at),
    )
}

// Whether a state keeps condition 1.
fn keeps_1(t: &Table, s: usize) -> bool
    requires { s < t.now.sizes.states }
    ensures { Tells result (Condition1 (table_in t.now.numbers.now) s) }
{
    accepts_end(t, s)
        && if s == 0 {
            !some_moved(t, s) && t.item_rule(t.first_item(s)) == t.sizes.rules
        } else {
            some_moved(t, s)
        }
}

// The lowest state that breaks condition 1, if one does.
pub(crate) fn breaks_1(t: &Table) -> Option<usize>
    ensures { LowestBreaker (table_in t.now.numbers.now) 1 result }
{
    (0..t.sizes.states).find(|s| !keeps_1(t, *s))
}
