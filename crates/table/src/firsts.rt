// The first sets: of each nonterminal the kinds that can begin it, found by rounds over the rules.
ghost use Rattle.std.specs.Prelude.{◌≡◌, ◌+◌, ◌<◌, ◌≤◌};
ghost use Rattle.theory.specs.Grammar.{Reduced};
ghost use Rattle.lines.specs.Limits.{max_terms, max_nonterms};
ghost use Rattle.table.specs.Places.{grammar_in};
ghost use Rattle.table.specs.Firsts.{first_set, FirstPart, FirstGrown, Firsts};

use crate::places::Table;
use crate::sets::single;
use lines::Shape;

// The kinds that can begin a symbol, by the rows of the nonterminals.
pub(crate) fn begins(terms: usize, rows: &[u64; Shape::MAX_NONTERMS], x: usize) -> u64
    requires { (terms ≤ max_terms) × (x ≤ terms + max_nonterms) }
    ensures { result ≡ first_set terms rows.now x }
{
    if x <= terms {
        return single(x);
    }
    rows[x - terms - 1]
}

// The row of a rule's left side takes in what can begin its right side; answers whether it grew.
fn first_by(t: &Table, rows: &mut [u64; Shape::MAX_NONTERMS], r: usize) -> bool
    requires { (r < t.now.sizes.rules) × Reduced (grammar_in t.now.numbers.now) × FirstPart (grammar_in t.now.numbers.now) rows.old }
    ensures { FirstGrown (grammar_in t.now.numbers.now) (λ q. q ≡ r) rows.old rows.new result }
{
    let k = t.left_of(r) - t.sizes.terms - 1;
    let x = t.right_symbol(r, 0);
    let old = rows[k];
    let new = old | begins(t.sizes.terms, rows, x);
    if new == old {
        return false;
    }
    rows[k] = new;
    true
}

// All rules, one after the other; answers whether a row grew.
fn first_round(t: &Table, rows: &mut [u64; Shape::MAX_NONTERMS]) -> bool
    requires { Reduced (grammar_in t.now.numbers.now) × FirstPart (grammar_in t.now.numbers.now) rows.old }
    ensures { FirstGrown (grammar_in t.now.numbers.now) (λ q. q < t.now.sizes.rules) rows.old rows.new result }
{
    let mut grew = false;
    for r in 0..t.sizes.rules {
        if first_by(t, rows, r) {
            grew = true;
        }
    }
    grew
}

// The first sets: the k-th row has exactly the kinds that can begin the k-th nonterminal.
// A `while`: it goes on until a round changes nothing.
pub(crate) fn firsts(t: &Table) -> [u64; Shape::MAX_NONTERMS]
    requires { Reduced (grammar_in t.now.numbers.now) }
    ensures { Firsts (grammar_in t.now.numbers.now) result }
{
    let mut rows = [0u64; Shape::MAX_NONTERMS];
    let mut grew = true;
    while grew {
        grew = first_round(t, &mut rows);
    }
    rows
}
