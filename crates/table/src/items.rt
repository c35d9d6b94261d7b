// The items and go lines of a table's states.
ghost use Rattle.std.specs.Prelude.{◌≡◌, ◌+◌, ◌<◌, ◌≤◌, length, get_or};
ghost use Rattle.theory.specs.Table.{rule_at as nth_rule, state_at as nth_state};
ghost use Rattle.table.specs.Places.{table_in, grammar_in, after_item, after_state, gos_place};
ghost use Rattle.table.specs.Items.{item_in, go_here, ItemHeld};
ghost use Rattle.table.specs.Items.Dot.{after_dot};

use crate::places::{Table, number};

impl Table<'_> {
    // How many items a state has.
    pub(crate) fn item_count(&self, s: usize) -> usize
        requires { s < self.now.sizes.states }
        ensures { result ≡ length (nth_state (table_in self.now.numbers.now) s).items }
    {
        let p = usize::from(self.state_at[s]);
        number(self.numbers, p + 1)
    }

    // How many go lines a state has.
    pub(crate) fn go_count(&self, s: usize) -> usize
        requires { s < self.now.sizes.states }
        ensures { result ≡ length (nth_state (table_in self.now.numbers.now) s).gos }
    {
        let p = usize::from(self.state_at[s]);
        number(self.numbers, p + 2)
    }

    // The place of a state's first item.
    pub(crate) fn first_item(&self, s: usize) -> usize
        requires { s < self.now.sizes.states }
        ensures { result ≡ get_or self.now.state_at.now s 0 + 3 }
    {
        usize::from(self.state_at[s]) + 3
    }

    // The place after all lines of a state.
    fn state_end(&self, s: usize) -> usize
        requires { s < self.now.sizes.states }
        ensures { result ≡ after_state (get_or self.now.state_at.now s 0) (nth_state (table_in self.now.numbers.now) s) }
    {
        if s + 1 < self.sizes.states {
            return usize::from(self.state_at[s + 1]);
        }
        self.numbers.len()
    }

    // The place of a state's first go line.
    pub(crate) fn first_go(&self, s: usize) -> usize
        requires { s < self.now.sizes.states }
        ensures { result ≡ gos_place (get_or self.now.state_at.now s 0) (nth_state (table_in self.now.numbers.now) s) }
    {
        let n = self.go_count(s);
        self.state_end(s) - 3 * n
    }

    // The rule of the item at a place.
    pub(crate) fn item_rule(&self, at: usize) -> usize
        requires { ItemHeld self.now.numbers.now at }
        ensures { result ≡ (item_in self.now.numbers.now at).rule }
    {
        number(self.numbers, at + 1)
    }

    // The dot of the item at a place.
    pub(crate) fn item_dot(&self, at: usize) -> usize
        requires { ItemHeld self.now.numbers.now at }
        ensures { result ≡ (item_in self.now.numbers.now at).dot }
    {
        number(self.numbers, at + 2)
    }

    // The place after the item at a place.
    // Lines differ in length, so a walk over items is a `for` over their count that reads the next place here.
    pub(crate) fn next_item(&self, at: usize) -> usize
        requires { ItemHeld self.now.numbers.now at }
        ensures { result ≡ after_item at (item_in self.now.numbers.now at) }
    {
        at + 1 + number(self.numbers, at)
    }

    // The symbol at a place of the right side of a rule, the accept rule too; the end mark past its end.
    pub(crate) fn symbol_at(&self, r: usize, j: usize) -> usize
        requires { r ≤ self.now.sizes.rules }
        ensures { result ≡ get_or (nth_rule (grammar_in self.now.numbers.now) r).right j (grammar_in self.now.numbers.now).terms }
    {
        if r < self.sizes.rules {
            if j < self.right_count(r) {
                return self.right_symbol(r, j);
            }
            return self.sizes.terms;
        }
        if j == 0 {
            return self.sizes.terms + 1;
        }
        self.sizes.terms
    }

    // The symbol after the dot of the item at a place; the end mark if the item is complete.
    pub(crate) fn after_dot(&self, at: usize) -> usize
        requires { ItemHeld self.now.numbers.now at }
        ensures { result ≡ after_dot (grammar_in self.now.numbers.now) (item_in self.now.numbers.now at) }
    {
        let r = self.item_rule(at);
        let d = self.item_dot(at);
        self.symbol_at(r, d)
    }

    // The symbol of the go line at a place.
    pub(crate) fn go_on(&self, at: usize) -> usize
        requires { at + 2 < length self.now.numbers.now }
        ensures { result ≡ (go_here self.now.numbers.now at).on }
    {
        number(self.numbers, at + 1)
    }

    // The target of the go line at a place.
    pub(crate) fn go_to(&self, at: usize) -> usize
        requires { at + 2 < length self.now.numbers.now }
        ensures { result ≡ (go_here self.now.numbers.now at).to }
    {
        number(self.numbers, at + 2)
    }
}
