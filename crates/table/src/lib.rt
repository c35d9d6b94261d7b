// The table check: whether a table of numbers passes.
#![tactic(auto)]

ghost use Rattle.std.specs.Prelude.{◌≡◌, ◌*◌, ◌≤◌, length};
ghost use Rattle.lines.specs.Limits.{max_numbers};
ghost use Rattle.table.specs.Check.{Checks};

use aheads::{Noted, SPREAD};
use conditions::verdict;
use lines::Shape;
use places::Table;
use walk::read_lines;

mod sets; // sets.rt: sets of numbers below 64, one number each
mod places; // places.rt: what stands at the places of the table's numbers
mod item_line; // item_line.rt: one item line, and its look-ahead set
mod states; // states.rt: the lines of the states, and their places and sets noted
mod walk; // walk.rt: all lines read one after the other, and the places noted
mod grammar; // grammar.rt: the productive and the reachable nonterminals, and unit chains
mod faults; // faults.rt: the grammar's lowest fault
mod firsts; // firsts.rt: the kinds that can begin each nonterminal
mod items; // items.rt: the items and go lines of a state
mod aheads; // aheads.rt: the look-ahead sets of all items, as they were noted
mod spots; // spots.rt: where the items of a state stand, by rule and dot
mod condition_1; // condition_1.rt: state 0's beginning, the accept rule, dots above 0
mod condition_2; // condition_2.rt: no two items agree
mod condition_3; // condition_3.rt: items with dot 0 are called for
mod condition_4; // condition_4.rt: rules after a dot are items, with sets large enough
mod condition_5; // condition_5.rt: go lines move the dots on
mod condition_6; // condition_6.rt: every state is led to
mod condition_7; // condition_7.rt: at most one action on a token
mod entries; // entries.rt: the look-ups of a table, built once
mod conditions; // conditions.rt: the grammar first, then the conditions, in document 01's order

pub use entries::{ACTS, GOES, SYMBOLS, look_ups};

// How many kinds, nonterminals, rules and states a table has.
#[derive(Clone, Copy)]
pub(crate) struct Sizes {
    pub terms: usize,
    pub nonterms: usize,
    pub rules: usize,
    pub states: usize,
}

// A notion of a grammar's nonterminals: it derives some string of tokens, it stands in some string derived from the
// start, or it comes to a symbol through rules whose right side is one symbol.
// An enum and no closure for each step: what the steps promise (`Means`, `Part`, `Grows`) goes by its cases.
#[derive(Clone, Copy)]
pub(crate) enum Notion {
    Productive,
    Reachable,
    ComesTo(usize),
}

// Why a table's lines are not read: too many numbers, or the line that does not fit.
#[derive(Clone, Copy, Debug, PartialEq, Eq)]
pub(crate) enum Unread {
    TooLong,
    Unfit(usize),
}

// Why a table does not pass. A line, a nonterminal or a state is told by its number.
#[derive(Clone, Copy, Debug, PartialEq, Eq)]
pub enum Fault {
    // It has too many numbers.
    TooLong,
    // A line does not fit, ends early or runs on.
    Unfit(usize),
    // The lowest nonterminal that is not productive or not reachable.
    NotReduced(usize),
    // The lowest nonterminal on a unit ring.
    Ring(usize),
    // The first condition that is broken, from 1, and the lowest state that breaks it.
    Broken(usize, usize),
}

// A fault of the lines is the check's.
impl From<Unread> for Fault {
    ghost use Rattle.table.specs.Lined.{fault_of};

    ghost from_gives = { λ unread fault. fault ≡ fault_of unread };

    fn from(unread: Unread) -> Fault {
        match unread {
            Unread::TooLong => Fault::TooLong,
            Unread::Unfit(line) => Fault::Unfit(line),
        }
    }
}

// Places for the look-ahead sets of a table of at most 512 numbers.
const FEW: usize = 128;

// The same for 2,048 numbers.
const SOME: usize = 512;

// The same for 8,192 numbers.
const MORE: usize = 2048;

// The same for 24,000 numbers.
const MANY: usize = 6000;

// The same for as many numbers as a table may have.
const MOST: usize = Shape::MAX_NUMBERS / SPREAD;

// Checks a table of numbers, with room for its look-ahead sets.
fn check_in(table: &[u16], sets: &mut [u64]) -> Result<usize, Fault>
    requires { length table.now ≤ max_numbers → length table.now ≤ 4 * length sets.old }
    ensures { Checks table.now result }
{
    let mut rule_at = [0u16; Shape::MAX_RULES];
    let mut state_at = [0u16; Shape::MAX_STATES];
    let sizes = read_lines(table, &mut rule_at, &mut state_at, sets)?;
    let table = Table {
        numbers: table,
        rule_at: &rule_at,
        state_at: &state_at,
        sizes,
    };
    verdict(&Noted {
        table: &table,
        sets,
    })
}

// The same in a room of so many sets.
fn check_sized<const N: usize>(table: &[u16]) -> Result<usize, Fault>
    requires { (N ≤ max_numbers) × (length table.now ≤ max_numbers → length table.now ≤ 4 * N) }
    ensures { Checks table.now result }
{
    let mut sets = [0u64; N];
    check_in(table, &mut sets)
}

// Checks a table of numbers. A small table is checked in a small room.
pub fn check_table(table: &[u16]) -> Result<usize, Fault>
    ensures { Checks table.now result }
{
    let n = table.len();
    if n <= SPREAD * FEW {
        return check_sized::<FEW>(table);
    }
    if n <= SPREAD * SOME {
        return check_sized::<SOME>(table);
    }
    if n <= SPREAD * MORE {
        return check_sized::<MORE>(table);
    }
    if n <= SPREAD * MANY {
        return check_sized::<MANY>(table);
    }
    check_sized::<MOST>(table)
}
