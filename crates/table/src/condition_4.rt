// Condition 4: the rules of a nonterminal after a dot are items with dot 0, and their sets have what is asked of them.
ghost use Rattle.std.specs.Prelude.{◌≡◌, ℕ, suc, ◌-◌, ◌<◌, length, get_or, replicate};
ghost use Rattle.theory.specs.Grammar.{Reduced};
ghost use Rattle.theory.specs.Table.{rule_at as nth_rule, state_at as nth_state, After, Condition4};
ghost use Rattle.lines.specs.Limits.{max_nonterms, max_rules};
ghost use Rattle.table.specs.Places.{table_in, grammar_in};
ghost use Rattle.table.specs.NotedTable.{table_of, grammar_of, item_of, ItemNoted};
ghost use Rattle.table.specs.Sets.{In, SetOf};
ghost use Rattle.table.specs.Firsts.{Firsts};
ghost use Rattle.table.specs.Tests.Tell.{Tells};
ghost use Rattle.table.specs.Checks.{KeptBefore};
ghost use Rattle.table.specs.Conditions.{LowestBreaker};
ghost use Rattle.table.specs.Condition4.{Asks, Asked, Given, NotedAsked, NotedGiven};
ghost use Rattle.table.specs.Condition4.Told.{ReducedTold, FirstsTold, reduced_told-prop, firsts_told-prop};

use crate::aheads::Noted;
use crate::firsts::begins;
use crate::places::Table;
use crate::sets::within;
use lines::Shape;

// A table of a reduced grammar, with the first sets of its nonterminals.
#[derive(Clone, Copy)]
struct FirstSets<'a> {
    noted: &'a Noted<'a>,
    rows: &'a [u64; Shape::MAX_NONTERMS],
    ghost reduced: { ReducedTold (grammar_of noted.now) } by { reduced_told-prop (grammar_of noted.now) },
    ghost told: { FirstsTold (grammar_of noted.now) rows.now } by { firsts_told-prop (grammar_of noted.now) rows.now },
}

impl FirstSets<'_> {
    // The set of what the item at a place asks of the rules of the nonterminal after its dot.
    fn asked_set(&self, at: usize) -> u64
        requires { ItemNoted self.now.noted.now at }
        ensures { let g = grammar_of self.now.noted.now in
            let i = item_of self.now.noted.now at in
            (b : ℕ) → After g i b → SetOf (Asks g b i) (suc g.terms) result }
    {
        let t = self.noted.table;
        let r = t.item_rule(at);
        let d = t.item_dot(at);
        let x = t.symbol_at(r, d + 1);
        if x == t.sizes.terms {
            return self.noted.set_at(at);
        }
        begins(t.sizes.terms, self.rows, x)
    }

    // Adds to the rows of sets what the item at a place asks.
    fn note_asked(&self, at: usize, asked: &mut [u64; Shape::MAX_NONTERMS])
        requires { ItemNoted self.now.noted.now at }
        ensures { NotedAsked (grammar_of self.now.noted.now) (item_of self.now.noted.now at) asked.old asked.new }
    {
        let t = self.noted.table;
        let x = t.after_dot(at);
        if t.sizes.terms < x {
            let b = x - t.sizes.terms - 1;
            asked[b] |= self.asked_set(at);
        }
    }

    // Fills empty rows of sets with what a state's items ask and give.
    fn gather(
        &self,
        s: usize,
        asked: &mut [u64; Shape::MAX_NONTERMS],
        given: &mut [u64; Shape::MAX_RULES],
    )
        requires here { s < self.now.noted.now.table.now.sizes.states }
        requires none_asked { asked.old ≡ replicate max_nonterms 0 }
        requires none_given { given.old ≡ replicate max_rules 0 }
        ensures asked { let is = (nth_state (table_of self.now.noted.now) s).items in
            Asked (grammar_of self.now.noted.now) is (length is) asked.new }
        ensures given { let is = (nth_state (table_of self.now.noted.now) s).items in
            Given (grammar_of self.now.noted.now) is (length is) given.new }
    {
        let t = self.noted.table;
        let n = t.item_count(s);
        let mut at = t.first_item(s);
        for _ in 0..n {
            self.note_asked(at, asked);
            note_given(self.noted, at, given);
            at = t.next_item(at);
        }
    }

    // Whether a state keeps condition 4.
    fn keeps_4(&self, s: usize) -> bool
        requires before { KeptBefore (table_of self.now.noted.now) 4 }
        requires here { s < self.now.noted.now.table.now.sizes.states }
        ensures { Tells result (Condition4 (table_of self.now.noted.now) s) }
    {
        let mut asked = [0u64; Shape::MAX_NONTERMS];
        let mut given = [0u64; Shape::MAX_RULES];
        self.gather(s, &mut asked, &mut given);
        all_given(self.noted.table, &asked, &given)
    }
}

// Adds to the rows of sets what the item at a place gives.
fn note_given(t: &Noted, at: usize, given: &mut [u64; Shape::MAX_RULES])
    requires { ItemNoted t.now at }
    ensures { NotedGiven (grammar_of t.now) (item_of t.now at) given.old given.new }
{
    let r = t.table.item_rule(at);
    if t.table.item_dot(at) == 0 && r < t.table.sizes.rules {
        given[r] |= t.set_at(at);
    }
}

// Whether what the rows of sets ask of each rule is given.
fn all_given(t: &Table, asked: &[u64; Shape::MAX_NONTERMS], given: &[u64; Shape::MAX_RULES]) -> bool
    ensures { let row = λ (r : ℕ). (nth_rule (grammar_in t.now.numbers.now) r).left - t.now.sizes.terms - 1 in
        Tells result ((r : ℕ) → r < t.now.sizes.rules → (a : ℕ) →
        In (get_or asked.now (row r) 0) a → In (get_or given.now r 0) a) }
{
    (0..t.sizes.rules).all(|r| {
        let b = t.left_of(r) - t.sizes.terms - 1;
        within(asked[b], given[r])
    })
}

// The lowest state that breaks condition 4, if one does.
pub(crate) fn breaks_4(t: &Noted, firsts: &[u64; Shape::MAX_NONTERMS]) -> Option<usize>
    requires { Firsts (grammar_in t.now.table.now.numbers.now) firsts.now ×
        Reduced (grammar_in t.now.table.now.numbers.now) × KeptBefore (table_in t.now.table.now.numbers.now) 4 }
    ensures { LowestBreaker (table_in t.now.table.now.numbers.now) 4 result }
{
    let sets = FirstSets {
        noted: t,
        rows: firsts,
    };
    (0..t.table.sizes.states).find(|s| !sets.keeps_4(*s))
}
