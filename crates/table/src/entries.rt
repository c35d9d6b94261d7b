// The look-ups of a table, built once: a run then finds an action, a go target, a rule's length or left side at one
// place.
ghost use Rattle.std.specs.Prelude.{◌≡◌, cond, [], ◌∷◌, suc, ◌+◌, ◌*◌, ◌≤◌, ◌<◌, length};
ghost use Rattle.theory.specs.Table.{rule_at as nth_rule, count, has, reduce_in, reduce_on, goto};
ghost use Rattle.lines.specs.Limits.{max_terms, max_nonterms, max_rules, max_states};
ghost use Rattle.table.specs.Places.{table_in, grammar_in};
ghost use Rattle.table.specs.Items.{item_in, ItemHeld};
ghost use Rattle.table.specs.LookUps.{room_for, coded, Row, Grid, Looked};
ghost use Rattle.table.specs.LookUps.Columns.{noted, Column};

use crate::Sizes;
use crate::places::{Table, number};
use crate::walk::read_lines;
use lines::Shape;

// Enough entries for tokens and states, whatever the table.
pub const ACTS: usize = Shape::MAX_TERMS * Shape::MAX_STATES;

// How many symbols a table may have, the end mark among them.
pub const SYMBOLS: usize = Shape::MAX_TERMS + Shape::MAX_NONTERMS + 1;

// Enough entries for symbols and states, whatever the table.
pub const GOES: usize = SYMBOLS * Shape::MAX_STATES;

// Writes one more than a number at a place, if nothing stands there yet.
// 0 is none: see `meant` of crate forest.
fn note(entries: &mut [u16], at: usize, v: usize)
    requires { (at < length entries.old) × (v ≤ max_states) }
    ensures { entries.new ≡ noted entries.old at (suc v) }
{
    if entries[at] == 0 {
        entries[at] = (v + 1) as u16;
    }
}

// Writes the rule of the item at a place for each kind of its set, in the column of a state.
fn note_set(t: &Table, s: usize, at: usize, acts: &mut [u16])
    requires { ItemHeld t.now.numbers.now at × (s < t.now.sizes.states) × (t.now.sizes.terms * t.now.sizes.states ≤ length acts.old) }
    ensures { Column t.now.sizes.terms t.now.sizes.states s (λ a. cond (has (item_in t.now.numbers.now at).ahead a) (suc (item_in t.now.numbers.now at).rule) 0) acts.old acts.new }
{
    let rule = t.item_rule(at);
    let n = number(t.numbers, at);
    let ahead = &t.numbers[at + 3..at + 1 + n];
    for x in ahead {
        let a = usize::from(*x);
        if a < t.sizes.terms {
            note(acts, a * t.sizes.states + s, rule);
        }
    }
}

// The same, if the item is complete.
fn note_item(t: &Table, s: usize, at: usize, acts: &mut [u16])
    requires { ItemHeld t.now.numbers.now at × (s < t.now.sizes.states) × (t.now.sizes.terms * t.now.sizes.states ≤ length acts.old) }
    ensures { Column t.now.sizes.terms t.now.sizes.states s (λ a. coded (reduce_in (grammar_in t.now.numbers.now) (item_in t.now.numbers.now at ∷ []) a)) acts.old acts.new }
{
    if t.after_dot(at) == t.sizes.terms {
        note_set(t, s, at, acts);
    }
}

// Writes the rules by which a state reduces, in its column.
fn note_acts(t: &Table, s: usize, acts: &mut [u16])
    requires { (s < t.now.sizes.states) × (t.now.sizes.terms * t.now.sizes.states ≤ length acts.old) }
    ensures { Column t.now.sizes.terms t.now.sizes.states s (λ a. coded (reduce_on (table_in t.now.numbers.now) s a)) acts.old acts.new }
{
    let n = t.item_count(s);
    let mut at = t.first_item(s);
    for _k in 0..n {
        note_item(t, s, at, acts);
        at = t.next_item(at);
    }
}

// Writes the targets of a state's go lines, in its column.
fn note_gos(t: &Table, s: usize, go: &mut [u16])
    requires { (s < t.now.sizes.states) × (suc (t.now.sizes.terms + t.now.sizes.nonterms) * t.now.sizes.states ≤ length go.old) }
    ensures { Column (suc (t.now.sizes.terms + t.now.sizes.nonterms)) t.now.sizes.states s (λ y. coded (goto (table_in t.now.numbers.now) s y)) go.old go.new }
{
    let n = t.go_count(s);
    let mut at = t.first_go(s);
    for _k in 0..n {
        let y = t.go_on(at);
        let to = t.go_to(at);
        note(go, y * t.sizes.states + s, to);
        at += 3;
    }
}

// Writes what all states do, and 0 elsewhere.
fn fill_states(t: &Table, acts: &mut [u16], go: &mut [u16])
    requires { (t.now.sizes.terms * t.now.sizes.states ≤ length acts.old) × (suc (t.now.sizes.terms + t.now.sizes.nonterms) * t.now.sizes.states ≤ length go.old) }
    ensures { Grid (grammar_in t.now.numbers.now).terms (count (table_in t.now.numbers.now)) (length acts.old) (λ a s. coded (reduce_on (table_in t.now.numbers.now) s a)) acts.new × Grid (suc ((grammar_in t.now.numbers.now).terms + (grammar_in t.now.numbers.now).nonterms)) (count (table_in t.now.numbers.now)) (length go.old) (λ y s. coded (goto (table_in t.now.numbers.now) s y)) go.new }
{
    acts.fill(0);
    go.fill(0);
    for s in 0..t.sizes.states {
        note_acts(t, s, acts);
        note_gos(t, s, go);
    }
}

// Writes the lengths and the left sides of all rules, and 0 elsewhere.
fn fill_rules(t: &Table, lens: &mut [u16; Shape::MAX_RULES], lefts: &mut [u16; Shape::MAX_RULES])
    ensures { Row (length (grammar_in t.now.numbers.now).rules) max_rules (λ r. length (nth_rule (grammar_in t.now.numbers.now) r).right) lens.new × Row (length (grammar_in t.now.numbers.now).rules) max_rules (λ r. (nth_rule (grammar_in t.now.numbers.now) r).left) lefts.new }
{
    lens.fill(0);
    lefts.fill(0);
    for r in 0..t.sizes.rules {
        lens[r] = t.right_count(r) as u16;
        lefts[r] = t.left_of(r) as u16;
    }
}

// Whether so many entries are enough for a table of these sizes.
#[tactic(auto, unfolding(crate::specs::LookUps::room_for))]
fn has_room(sizes: Sizes, acts: usize, go: usize) -> bool
    requires { (sizes.terms ≤ max_terms) × (sizes.nonterms ≤ max_nonterms) × (sizes.states ≤ max_states) }
    ensures { result ≡ room_for sizes.terms sizes.nonterms sizes.states acts go }
{
    let symbols = sizes.terms + sizes.nonterms + 1;
    sizes.terms * sizes.states <= acts && symbols * sizes.states <= go
}

// Builds the look-ups of a table of numbers. Where its lines do not fit or there is too little room it tells so and
// changes nothing. One kind of refusal, so the answer is a bool. Lengths and left sides are two arrays: `Looked` speaks
// of each.
pub fn look_ups(
    table: &[u16],
    acts: &mut [u16],
    go: &mut [u16],
    lens: &mut [u16; Shape::MAX_RULES],
    lefts: &mut [u16; Shape::MAX_RULES],
) -> bool
    ensures { Looked table.now acts.old go.old lens.old lefts.old acts.new go.new lens.new lefts.new result }
{
    let mut rule_at = [0u16; Shape::MAX_RULES];
    let mut state_at = [0u16; Shape::MAX_STATES];
    // Reading notes look-ahead sets where there is room; none is needed here.
    let mut none = [0u64; 1];
    let Ok(sizes) = read_lines(table, &mut rule_at, &mut state_at, &mut none) else {
        return false;
    };
    if has_room(sizes, acts.len(), go.len()) {
        let t = Table {
            numbers: table,
            rule_at: &rule_at,
            state_at: &state_at,
            sizes,
        };
        fill_states(&t, acts, go);
        fill_rules(&t, lens, lefts);
        return true;
    }
    false
}
