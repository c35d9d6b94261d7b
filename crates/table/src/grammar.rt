// Sets of a grammar's nonterminals, found by rounds over the rules.
ghost use Rattle.std.specs.Prelude.{◌≡◌, ◌+◌, ◌<◌, ◌≤◌, true};
ghost use Rattle.theory.specs.Table.{rule_at as nth_rule};
ghost use Rattle.table.specs.Places.{grammar_in};
ghost use Rattle.table.specs.Tests.Tell.{Tells};
ghost use Rattle.table.specs.Sets.{SetOf, set_size};
ghost use Rattle.table.specs.Notions.{nonterm, Means, member, made, with, Made, Part, Grows, GrownBy, Asked, first_of};

use crate::Notion;
use crate::places::Table;
use crate::sets::{has, single};

// Whether a symbol is a nonterminal in the set.
fn member(terms: usize, set: u64, x: usize) -> bool
    requires { x ≤ terms + set_size }
    ensures { result ≡ member terms set x }
{
    if x <= terms {
        return false;
    }
    has(set, x - terms - 1)
}

// Whether a symbol is a kind, or a nonterminal in the set.
fn made(terms: usize, set: u64, x: usize) -> bool
    requires { x ≤ terms + set_size }
    ensures { result ≡ made terms set x }
{
    if x < terms {
        return true;
    }
    member(terms, set, x)
}

// The set and a nonterminal.
fn with(terms: usize, set: u64, x: usize) -> u64
    requires { (terms < x) × (x ≤ terms + set_size) }
    ensures { result ≡ with terms set x }
{
    set | single(x - terms - 1)
}

// Whether all symbols on a rule's right side are kinds, or nonterminals in the set.
fn all_made(t: &Table, r: usize, set: u64) -> bool
    requires { r < t.now.sizes.rules }
    ensures { Tells result (Made (grammar_in t.now.numbers.now) set (nth_rule (grammar_in t.now.numbers.now) r).right) }
{
    for j in 0..t.right_count(r) {
        let x = t.right_symbol(r, j);
        if !made(t.sizes.terms, set, x) {
            return false;
        }
    }
    true
}

// What a rule makes of the set of productive nonterminals so far.
fn productive_by(t: &Table, r: usize, set: u64) -> u64
    requires { (r < t.now.sizes.rules) × Part (grammar_in t.now.numbers.now) Notion.Productive set }
    ensures { Grows (grammar_in t.now.numbers.now) Notion.Productive (nth_rule (grammar_in t.now.numbers.now) r) set result }
{
    if all_made(t, r, set) {
        let a = t.left_of(r);
        return with(t.sizes.terms, set, a);
    }
    set
}

// The set of reachable nonterminals so far, which has the rule's left side, and the nonterminals on the rule's right
// side.
fn with_right(t: &Table, r: usize, set: u64) -> u64
    requires { (r < t.now.sizes.rules) × Part (grammar_in t.now.numbers.now) Notion.Reachable set × (member t.now.sizes.terms set (nth_rule (grammar_in t.now.numbers.now) r).left ≡ true) }
    ensures { Grows (grammar_in t.now.numbers.now) Notion.Reachable (nth_rule (grammar_in t.now.numbers.now) r) set result }
{
    let mut out = set;
    for j in 0..t.right_count(r) {
        let x = t.right_symbol(r, j);
        if t.sizes.terms < x {
            out = with(t.sizes.terms, out, x);
        }
    }
    out
}

// What a rule makes of the set of reachable nonterminals so far.
fn reachable_by(t: &Table, r: usize, set: u64) -> u64
    requires { (r < t.now.sizes.rules) × Part (grammar_in t.now.numbers.now) Notion.Reachable set }
    ensures { Grows (grammar_in t.now.numbers.now) Notion.Reachable (nth_rule (grammar_in t.now.numbers.now) r) set result }
{
    let a = t.left_of(r);
    if member(t.sizes.terms, set, a) {
        return with_right(t, r, set);
    }
    set
}

// What a rule makes of the set of nonterminals so far that come to c through rules whose right side is one symbol.
fn comes_by(t: &Table, c: usize, r: usize, set: u64) -> u64
    requires { (r < t.now.sizes.rules) × Part (grammar_in t.now.numbers.now) (Notion.ComesTo c) set }
    ensures { Grows (grammar_in t.now.numbers.now) (Notion.ComesTo c) (nth_rule (grammar_in t.now.numbers.now) r) set result }
{
    if t.right_count(r) != 1 {
        return set;
    }
    let b = t.right_symbol(r, 0);
    if b != c {
        if !member(t.sizes.terms, set, b) {
            return set;
        }
    }
    let a = t.left_of(r);
    with(t.sizes.terms, set, a)
}

// What a rule makes of the set of a notion so far.
fn grow_by(t: &Table, notion: Notion, r: usize, set: u64) -> u64
    requires { (r < t.now.sizes.rules) × Part (grammar_in t.now.numbers.now) notion set }
    ensures { Grows (grammar_in t.now.numbers.now) notion (nth_rule (grammar_in t.now.numbers.now) r) set result }
{
    match notion {
        Notion::Productive => productive_by(t, r, set),
        Notion::Reachable => reachable_by(t, r, set),
        Notion::ComesTo(c) => comes_by(t, c, r, set),
    }
}

// What all rules, one after the other, make of the set of a notion so far.
fn round(t: &Table, notion: Notion, set: u64) -> u64
    requires { Part (grammar_in t.now.numbers.now) notion set }
    ensures { GrownBy (grammar_in t.now.numbers.now) notion t.now.sizes.rules set result }
{
    let mut out = set;
    for r in 0..t.sizes.rules {
        out = grow_by(t, notion, r, out);
    }
    out
}

// What the set of a notion begins with.
fn first_of(notion: Notion) -> u64
    ensures { result ≡ first_of notion }
{
    match notion {
        Notion::Productive => 0,
        Notion::Reachable => 1,
        Notion::ComesTo(_) => 0,
    }
}

// The set of a notion: the k-th nonterminal is in it exactly if the notion holds of it.
// A `while`: it goes on until a round changes nothing.
pub(crate) fn set_of(t: &Table, notion: Notion) -> u64
    requires { Asked (grammar_in t.now.numbers.now) notion }
    ensures { SetOf (λ k. Means (grammar_in t.now.numbers.now) notion (nonterm (grammar_in t.now.numbers.now) k)) t.now.sizes.nonterms result }
{
    let mut set = first_of(notion);
    let mut next = round(t, notion, set);
    while next != set {
        set = next;
        next = round(t, notion, set);
    }
    set
}
