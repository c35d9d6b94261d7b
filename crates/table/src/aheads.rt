// The look-ahead sets of all items, made once: the set of the item at a place stands at a quarter of the place, since
// an item's line takes at least four, its count among them.
ghost use Rattle.std.specs.Prelude.{◌≡◌, suc, ◌/◌, set};
ghost use mathlib.Core.List.{Memᴰ as Mem};
ghost use Rattle.table.specs.Aheads.{SetNoted, AllTold};
ghost use Rattle.table.specs.Items.{item_in};
ghost use Rattle.table.specs.Places.{grammar_in};
ghost use Rattle.table.specs.Props.{all_told-prop};
ghost use Rattle.table.specs.Sets.{SetOf};

use crate::places::Table;

// Places of a table for each look-ahead set.
pub(crate) const SPREAD: usize = 4;

// Writes the look-ahead set of the item at a place, if there is room for it.
pub(crate) fn write_set(sets: &mut [u64], at: usize, made: u64)
    ensures { sets.new ≡ set sets.old (at / 4) made }
{
    let place = at / SPREAD;
    if place < sets.len() {
        sets[place] = made;
    }
}

// A table whose lines fit, with the look-ahead sets of all its items.
#[derive(Clone, Copy)]
pub(crate) struct Noted<'a> {
    pub table: &'a Table<'a>,
    pub sets: &'a [u64],
    ghost all_told: { AllTold table.now.numbers.now table.now.state_at.now table.now.sizes sets.now } by { all_told-prop table.now.numbers.now table.now.state_at.now table.now.sizes sets.now },
}

impl Noted<'_> {
    // The look-ahead set of the item at a place.
    pub(crate) fn set_at(&self, at: usize) -> u64
        requires { SetNoted self.now.table.now.numbers.now self.now.sets.now at }
        ensures { SetOf (λ a. Mem a (item_in self.now.table.now.numbers.now at).ahead) (suc (grammar_in self.now.table.now.numbers.now).terms) result }
    {
        self.sets[at / SPREAD]
    }
}
