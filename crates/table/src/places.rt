// What stands at the places of a table's numbers.
ghost use Rattle.std.specs.Prelude.{◌≡◌, ◌+◌, ◌<◌, length, get_or};
ghost use Rattle.theory.specs.Table.{rule_at as nth_rule};
ghost use Rattle.table.specs.Places.{Held, grammar_in};
ghost use Rattle.table.specs.Items.{StatesHeld};
ghost use Rattle.table.specs.Props.{held-prop, states_held-prop};

use crate::Sizes;
use lines::Shape;

// The number at a place.
pub(crate) fn number(numbers: &[u16], at: usize) -> usize
    requires { at < length numbers.now }
    ensures { result ≡ get_or numbers.now at 0 }
{
    usize::from(numbers[at])
}

// A table whose lines fit: its numbers, the places of the lines of its rules and of its states, and its sizes.
#[derive(Clone, Copy)]
pub(crate) struct Table<'a> {
    pub numbers: &'a [u16],
    pub rule_at: &'a [u16; Shape::MAX_RULES],
    pub state_at: &'a [u16; Shape::MAX_STATES],
    pub sizes: Sizes,
    ghost rules_held: { Held numbers.now rule_at.now sizes } by { held-prop numbers.now rule_at.now sizes },
    ghost states_held: { StatesHeld numbers.now state_at.now sizes } by { states_held-prop numbers.now state_at.now sizes },
}

impl Table<'_> {
    // The left side of a rule.
    pub(crate) fn left_of(&self, r: usize) -> usize
        requires { r < self.now.sizes.rules }
        ensures { result ≡ (nth_rule (grammar_in self.now.numbers.now) r).left }
    {
        let p = usize::from(self.rule_at[r]);
        number(self.numbers, p + 1)
    }

    // How many symbols the right side of a rule has.
    pub(crate) fn right_count(&self, r: usize) -> usize
        requires { r < self.now.sizes.rules }
        ensures { result ≡ length (nth_rule (grammar_in self.now.numbers.now) r).right }
    {
        let p = usize::from(self.rule_at[r]);
        number(self.numbers, p) - 1
    }

    // The symbol at a place of a rule's right side.
    pub(crate) fn right_symbol(&self, r: usize, j: usize) -> usize
        requires { (r < self.now.sizes.rules) × (j < length (nth_rule (grammar_in self.now.numbers.now) r).right) }
        ensures { result ≡ get_or (nth_rule (grammar_in self.now.numbers.now) r).right j 0 }
    {
        let p = usize::from(self.rule_at[r]);
        number(self.numbers, p + 2 + j)
    }
}
