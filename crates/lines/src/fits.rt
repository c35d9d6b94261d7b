// Whether one line's numbers fit: a test for each kind of line.
ghost use Rattle.std.specs.Prelude.{◌≡◌, leb, get_or, take};
ghost use Rattle.lines.specs.Lines.Fits.{at, all, is_nonterm, is_symbol, ahead_fits, fits_one, fits_rule, fits_state, fits_item, fits_go};

use crate::shape::Shape;

// The number at a place of a line, 0 past its end.
pub(crate) fn at(numbers: &[u16], place: usize) -> usize
    ensures { result ≡ at numbers.now place }
{
    numbers.get(place).map_or(0, |x| usize::from(*x))
}

// Whether x is a nonterminal.
fn is_nonterm(terms: usize, nonterms: usize, x: usize) -> bool
    ensures { result ≡ is_nonterm terms nonterms x }
{
    terms < x && x - terms <= nonterms
}

// Whether x is a kind or a nonterminal, not the end mark.
fn is_symbol(terms: usize, nonterms: usize, x: usize) -> bool
    ensures { result ≡ is_symbol terms nonterms x }
{
    x < terms || is_nonterm(terms, nonterms, x)
}

// Whether all are kinds or nonterminals.
fn all_symbols(terms: usize, nonterms: usize, symbols: &[u16]) -> bool
    ensures { result ≡ all (is_symbol terms nonterms) symbols.now }
{
    symbols
        .iter()
        .all(|x| is_symbol(terms, nonterms, usize::from(*x)))
}

// Whether all are kinds or the end mark, and rise: of a set that rises the last tells for all.
fn ahead_fits(terms: usize, ahead: &[u16]) -> bool
    ensures { result ≡ ahead_fits terms ahead.now }
{
    ahead.is_sorted_by(|a, b| a < b) && ahead.last().is_none_or(|t| usize::from(*t) <= terms)
}

// The length of a rule's right side; the accept rule's is 1.
fn right_length(rights: &[u8], rule: usize) -> usize
    ensures { result ≡ get_or rights.now rule 1 }
{
    rights.get(rule).map_or(1, |n| usize::from(*n))
}

// terms=T, nonterms=N, rules=R, states=m.
pub(crate) fn fits_one(most: usize, numbers: &[u16]) -> bool
    ensures { result ≡ fits_one most numbers.now }
{
    matches!(numbers, [n] if (1..=most).contains(&usize::from(*n)))
}

// rule=A X1 ..
#[tactic(auto, unfolding(crate::specs::Lines::Fits::fits_rule))]
pub(crate) fn fits_rule(terms: usize, nonterms: usize, numbers: &[u16]) -> bool
    ensures { result ≡ fits_rule terms nonterms numbers.now }
{
    let [left, right @ ..] = numbers else {
        return false;
    };
    (1..=Shape::MAX_RIGHT).contains(&right.len())
        && is_nonterm(terms, nonterms, usize::from(*left))
        && all_symbols(terms, nonterms, right)
}

// state=K G
#[tactic(auto, unfolding(crate::specs::Lines::Fits::fits_state))]
pub fn fits_state(numbers: &[u16]) -> bool
    ensures { result ≡ fits_state numbers.now }
{
    let [items, gos] = numbers else {
        return false;
    };
    (1..=Shape::MAX_ITEMS).contains(&usize::from(*items)) && usize::from(*gos) <= Shape::MAX_GOS
}

// item=r d t1 .., after rules whose right sides have these lengths.
#[tactic(auto, unfolding(crate::specs::Lines::Fits::fits_item))]
fn fits_item(terms: usize, rights: &[u8], numbers: &[u16]) -> bool
    ensures { result ≡ fits_item terms rights.now numbers.now }
{
    let [rule, dot, ahead @ ..] = numbers else {
        return false;
    };
    let rule = usize::from(*rule);
    !ahead.is_empty()
        && rule <= rights.len()
        && usize::from(*dot) <= right_length(rights, rule)
        && ahead_fits(terms, ahead)
}

// item=r d t1 .., after the first of the rules whose right sides have these lengths.
pub fn fits_item_of(terms: usize, rules: usize, lengths: &[u8], numbers: &[u16]) -> bool
    ensures { result ≡ fits_item terms (take rules lengths.now) numbers.now }
{
    fits_item(terms, lengths.get(..rules).unwrap_or(lengths), numbers)
}

// go=X s, with X at least above.
#[tactic(auto, unfolding(crate::specs::Lines::Fits::fits_go))]
pub fn fits_go(terms: usize, nonterms: usize, states: usize, above: usize, numbers: &[u16]) -> bool
    ensures { result ≡ fits_go terms nonterms states (leb above) numbers.now }
{
    let [on, to] = numbers else {
        return false;
    };
    let on = usize::from(*on);
    is_symbol(terms, nonterms, on) && usize::from(*to) < states && above <= on
}
