// Condition 5: a state's go lines, and the items of their targets, are what its items move on to.
ghost use Rattle.std.specs.Prelude.{◌≡◌, true, suc, ◌<◌, get_or};
ghost use mathlib.Core.List.{Memᴰ as Mem};
ghost use Rattle.theory.specs.Table.{Item, Go, state_at as nth_state, InState, Condition2, Condition5};
ghost use Rattle.table.specs.Places.{table_in};
ghost use Rattle.table.specs.Items.{go_here, ItemHeld, GoHere};
ghost use Rattle.table.specs.NotedTable.{table_of, item_of, ItemNoted};
ghost use Rattle.table.specs.Spots.{core_of, CoreIn, Spots};
ghost use Rattle.table.specs.Tests.Tell.{Tells};
ghost use Rattle.table.specs.Checks.{KeptBefore};
ghost use Rattle.table.specs.Conditions.{LowestBreaker};
ghost use Rattle.table.specs.Condition5.{From, MarkedAt, MarksTo, AheadOf, Onward, Back, Led, MetIn, Met, MarksTell};
ghost use Rattle.table.specs.Condition5.Spotted.{AllSpots, condition2-prop, all_spots-prop};

use crate::aheads::Noted;
use crate::sets::within;
use crate::spots::{CORES, core, note_items, spot_of};

// A state whose go lines are asked about: no two of its items agree in rule and dot, and the places of all of them
// are noted.
#[derive(Clone, Copy)]
struct Source<'a> {
    noted: &'a Noted<'a>,
    s: usize,
    spots: &'a [u16; CORES],
    ghost here: { s < noted.now.table.now.sizes.states },
    ghost distinct: { Condition2 (table_of noted.now) s } by { condition2-prop (table_of noted.now) s },
    ghost spotted: { AllSpots noted.now.table.now s spots.now } by { all_spots-prop noted.now.table.now s spots.now },
}

impl Source<'_> {
    // The look-ahead set of the state's item with this rule and this dot, if it has one.
    fn set_of(&self, rule: usize, dot: usize) -> Option<u64>
        requires { CoreIn rule dot }
        ensures { AheadOf (table_of self.now.noted.now) self.now.s rule dot result }
    {
        let at = spot_of(self.spots, rule, dot);
        if at < self.noted.table.first_item(self.s) {
            return None;
        }
        Some(self.noted.set_at(at))
    }

    // Whether the item at a place, if its dot is above 0, is an item of the state that has x after its dot, with the
    // dot moved on.
    // A `match` and no `is_some_and`: of its closure the proof did not learn what `within` says.
    fn comes_back(&self, x: usize, at: usize) -> bool
        requires symbol { x ≡ self.now.noted.now.table.now.sizes.terms → ⊥ }
        requires item { ItemNoted self.now.noted.now at }
        ensures { Tells result (Back (table_of self.now.noted.now) self.now.s x (item_of self.now.noted.now at)) }
    {
        let t = self.noted.table;
        let d = t.item_dot(at);
        if d == 0 {
            return true;
        }
        let r = t.item_rule(at);
        if t.symbol_at(r, d - 1) != x {
            return false;
        }
        match self.set_of(r, d - 1) {
            Some(old) => within(old, self.noted.set_at(at)),
            None => false,
        }
    }

    // Sets the state's mark at the rule and the dot that the item at a place, if its dot is above 0, comes from.
    fn mark(&self, at: usize, marks: &mut [u8; CORES])
        requires { ItemHeld self.now.noted.now.table.now.numbers.now at }
        ensures { MarkedAt self.now.s (From (item_of self.now.noted.now at)) marks.old marks.new }
    {
        let t = self.noted.table;
        let d = t.item_dot(at);
        if d > 0 {
            let c = core(t.item_rule(at), d - 1);
            marks[c] = (self.s + 1) as u8;
        }
    }

    // Whether all items of a go line's target come from the state; these are marked.
    fn all_back(&self, x: usize, to: usize, marks: &mut [u8; CORES]) -> bool
        requires symbol { x ≡ self.now.noted.now.table.now.sizes.terms → ⊥ }
        requires target { to < self.now.noted.now.table.now.sizes.states }
        ensures tells { let t = table_of self.now.noted.now in
            Tells result ((j : Item) → InState t to j → Back t self.now.s x j) }
        ensures marked_at { result ≡ true →
            MarkedAt self.now.s (MetIn (table_of self.now.noted.now) self.now.s to) marks.old marks.new }
    {
        let t = self.noted.table;
        let n = t.item_count(to);
        let mut at = t.first_item(to);
        for _ in 0..n {
            if !self.comes_back(x, at) {
                return false;
            }
            self.mark(at, marks);
            at = t.next_item(at);
        }
        true
    }

    // Whether the go line at a place leads to another state than 0, all of whose items come from the state; these are
    // marked.
    fn led(&self, at: usize, marks: &mut [u8; CORES]) -> bool
        requires { let ns = self.now.noted.now.table.now.numbers.now in GoHere ns at (go_here ns at) }
        ensures tells { let ns = self.now.noted.now.table.now.numbers.now in
            Tells result (Led (table_in ns) self.now.s (go_here ns at)) }
        ensures marked_at { let ns = self.now.noted.now.table.now.numbers.now in
            result ≡ true →
            MarkedAt self.now.s (MetIn (table_in ns) self.now.s (go_here ns at).to) marks.old marks.new }
    {
        let x = self.noted.table.go_on(at);
        let to = self.noted.table.go_to(at);
        to > 0 && self.all_back(x, to, marks)
    }

    // Whether all go lines of the state lead to other states than 0, all of whose items come from the state; these are
    // marked.
    fn all_led(&self, marks: &mut [u8; CORES]) -> bool
        ensures tells { let t = table_of self.now.noted.now in
            Tells result ((l : Go) → Mem l (nth_state t self.now.s).gos → Led t self.now.s l) }
        ensures marked_at { result ≡ true →
            MarkedAt self.now.s (Met (table_of self.now.noted.now) self.now.s) marks.old marks.new }
    {
        let n = self.noted.table.go_count(self.s);
        let mut at = self.noted.table.first_go(self.s);
        for _ in 0..n {
            if !self.led(at, marks) {
                return false;
            }
            at += 3;
        }
        true
    }

    // Whether the item at a place moves on: it is complete, or was met with the dot moved on.
    fn moves_on(&self, marks: &[u8; CORES], at: usize) -> bool
        requires held { ItemHeld self.now.noted.now.table.now.numbers.now at }
        requires here { InState (table_of self.now.noted.now) self.now.s (item_of self.now.noted.now at) }
        requires led { let t = table_of self.now.noted.now in
            (l : Go) → Mem l (nth_state t self.now.s).gos → Led t self.now.s l }
        requires marks { MarksTell (table_of self.now.noted.now) self.now.s marks.now }
        ensures { Tells result (Onward (table_of self.now.noted.now) self.now.s (item_of self.now.noted.now at)) }
    {
        let t = self.noted.table;
        t.after_dot(at) == t.sizes.terms
            || mark_at(marks, t.item_rule(at), t.item_dot(at)) == self.s + 1
    }

    // Whether all items of the state move on.
    fn all_move(&self, marks: &[u8; CORES]) -> bool
        requires led { let t = table_of self.now.noted.now in
            (l : Go) → Mem l (nth_state t self.now.s).gos → Led t self.now.s l }
        requires marks { MarksTell (table_of self.now.noted.now) self.now.s marks.now }
        ensures { let t = table_of self.now.noted.now in
            Tells result ((i : Item) → InState t self.now.s i → Onward t self.now.s i) }
    {
        let t = self.noted.table;
        let n = t.item_count(self.s);
        let mut at = t.first_item(self.s);
        for _ in 0..n {
            if !self.moves_on(marks, at) {
                return false;
            }
            at = t.next_item(at);
        }
        true
    }
}

// The mark at a rule and a dot.
fn mark_at(marks: &[u8; CORES], rule: usize, dot: usize) -> usize
    requires { CoreIn rule dot }
    ensures { result ≡ get_or marks.now (core_of rule dot) 0 }
{
    usize::from(marks[core(rule, dot)])
}

// Whether a state keeps condition 5; its items' places are noted, and it sets its marks.
fn keeps_5(t: &Noted, s: usize, spots: &mut [u16; CORES], marks: &mut [u8; CORES]) -> bool
    requires before { KeptBefore (table_of t.now) 5 }
    requires here { s < t.now.table.now.sizes.states }
    requires spots { Spots t.now.table.now.numbers.now t.now.table.now.state_at.now s 0 spots.old }
    requires marks { MarksTo s marks.old }
    ensures tells { Tells result (Condition5 (table_of t.now) s) }
    ensures spots { result ≡ true → AllSpots t.now.table.now s spots.new }
    ensures marks { result ≡ true → MarksTo (suc s) marks.new }
{
    note_items(t.table, s, spots);
    let source = Source { noted: t, s, spots };
    source.all_led(marks) && source.all_move(marks)
}

// The lowest state that breaks condition 5, if one does.
pub(crate) fn breaks_5(t: &Noted) -> Option<usize>
    requires { KeptBefore (table_in t.now.table.now.numbers.now) 5 }
    ensures { LowestBreaker (table_in t.now.table.now.numbers.now) 5 result }
{
    let mut spots = [0u16; CORES];
    let mut marks = [0u8; CORES];
    for s in 0..t.table.sizes.states {
        if !keeps_5(t, s, &mut spots, &mut marks) {
            return Some(s);
        }
    }
    None
}
