// The grammar's faults: a nonterminal that is not productive or not reachable, and one on a unit ring.
ghost use Rattle.theory.specs.Grammar.{Reduced, NoRing};
ghost use Rattle.table.specs.Checks.{NotReduced, OnRing};
ghost use Rattle.table.specs.Faults.{Finds};
ghost use Rattle.table.specs.Places.{grammar_in};

use crate::Notion;
use crate::grammar::set_of;
use crate::places::Table;
use crate::sets::has;

// The lowest nonterminal that is not productive or not reachable, if there is one.
pub(crate) fn lowest_fault(t: &Table) -> Option<usize>
    ensures { Finds (NotReduced (grammar_in t.now.numbers.now)) (Reduced (grammar_in t.now.numbers.now)) result }
{
    let productive = set_of(t, Notion::Productive);
    let reachable = set_of(t, Notion::Reachable);
    let k = u64::trailing_zeros((productive & reachable) + 1) as usize;
    if k < t.sizes.nonterms {
        return Some(t.sizes.terms + 1 + k);
    }
    None
}

// The lowest nonterminal on a unit ring, if there is one.
pub(crate) fn lowest_ring(t: &Table) -> Option<usize>
    ensures { Finds (OnRing (grammar_in t.now.numbers.now)) (NoRing (grammar_in t.now.numbers.now)) result }
{
    for k in 0..t.sizes.nonterms {
        let a = t.sizes.terms + 1 + k;
        let set = set_of(t, Notion::ComesTo(a));
        if has(set, k) {
            return Some(a);
        }
    }
    None
}
