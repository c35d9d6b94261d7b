// One item line of a table: whether it fits, and its look-ahead set, in one walk over its numbers.
ghost use Rattle.std.specs.Prelude.{◌≤◌};
ghost use Rattle.lines.specs.Limits.{max_terms};
ghost use Rattle.table.specs.States.{AheadRead, ItemRead};

use crate::sets::single;

// How many numbers a set of 64 bits can have.
const SET_SIZE: usize = 64;

// Reads a look-ahead set: its members as one number, if it fits. Of members that rise the last tells for all whether
// they are kinds or the end mark. A member too large for a set is cut; then the last one is too large as well, and the
// set does not fit.
fn read_ahead(terms: usize, ahead: &[u16]) -> Option<u64>
    requires { terms ≤ max_terms }
    ensures { AheadRead terms ahead.now result }
{
    let mut set: u64 = 0;
    let mut least = 0;
    for x in ahead {
        let a = usize::from(*x);
        if a < least {
            return None;
        }
        set |= single(a % SET_SIZE);
        least = a + 1;
    }
    if terms + 1 < least {
        return None;
    }
    Some(set)
}

// Reads the numbers of an item line after rules whose right sides have these lengths: the tests of
// `lines::fits_item_of`, and the set is made on the way. The accept rule's right side has one symbol.
#[tactic(auto, unfolding(lines::specs::Lines::Fits::fits_item))]
pub(crate) fn read_item(terms: usize, rights: &[u8], numbers: &[u16]) -> Option<u64>
    requires { terms ≤ max_terms }
    ensures { ItemRead terms rights.now numbers.now result }
{
    let [rule, dot, ahead @ ..] = numbers else {
        return None;
    };
    let rule = usize::from(*rule);
    let most = rights.get(rule).map_or(1, |n| usize::from(*n));
    if !ahead.is_empty() && rule <= rights.len() && usize::from(*dot) <= most {
        read_ahead(terms, ahead)
    } else {
        None
    }
}
