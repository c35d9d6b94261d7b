// The lines of a table's states, read one after the other: state lines, item lines with their look-ahead sets, and go
// lines.
ghost use Rattle.std.specs.Prelude.{◌≤◌, List, ℕ, length};
ghost use Rattle.table.specs.Aheads.{SetsRead};
ghost use Rattle.table.specs.Lined.{Reads};
ghost use Rattle.table.specs.Props.{within-prop};
ghost use Rattle.table.specs.Walk.{Walked};
ghost use Rattle.table.specs.States.{LineOf, in_state, Within, Inside, ItemsRead, GosRead, StateRead};

use crate::aheads::write_set;
use crate::item_line::read_item;
use crate::places::number;
use crate::{Sizes, Unread};
use lines::Shape;

// Where a reading of lines has come to: a place, and how many lines stand before it.
#[derive(Clone, Copy)]
pub(crate) struct Reached {
    pub at: usize,
    pub line: usize,
}

// A table whose lines before the states' were read: its numbers, the sizes that those lines said, and the lengths of
// the rules' right sides.
#[derive(Clone, Copy)]
pub(crate) struct Body<'a> {
    pub numbers: &'a [u16],
    pub sizes: Sizes,
    pub lengths: &'a [u8; Shape::MAX_RULES],
    ghost within: { Within numbers.now sizes } by { within-prop numbers.now sizes },
}

// The numbers of the line at a place, if a whole line stands there.
pub(crate) fn line_at(table: &[u16], at: usize) -> Option<&[u16]>
    requires { at ≤ length table.now }
    ensures { LineOf table.now at result }
{
    if at == table.len() {
        return None;
    }
    let n = number(table, at);
    let rest = &table[at + 1..];
    if rest.len() < n {
        return None;
    }
    Some(&rest[..n])
}

impl Body<'_> {
    // The item lines of a state. Their look-ahead sets are written where there is room.
    fn read_items(&self, from: Reached, count: usize, sets: &mut [u64]) -> Result<Reached, Unread>
        requires { Inside self.now.numbers.now from }
        ensures { ItemsRead self.now.numbers.now self.now.lengths.now self.now.sizes from count sets.old sets.new result }
    {
        let lengths = self.lengths;
        let rights = &lengths[..self.sizes.rules];
        let mut at = from.at;
        for done in 0..count {
            let unfit = Unread::Unfit(from.line + done);
            let numbers = line_at(self.numbers, at).ok_or(unfit)?;
            let set = read_item(self.sizes.terms, rights, numbers).ok_or(unfit)?;
            write_set(sets, at, set);
            at += 1 + numbers.len();
        }
        Ok(Reached {
            at,
            line: from.line + count,
        })
    }

    // The go lines of a state.
    fn read_gos(&self, from: Reached, count: usize) -> Result<Reached, Unread>
        requires { Inside self.now.numbers.now from }
        ensures { GosRead self.now.numbers.now self.now.lengths.now self.now.sizes from count result }
    {
        let Sizes {
            terms,
            nonterms,
            states,
            ..
        } = self.sizes;
        let mut at = from.at;
        let mut above = 0;
        for done in 0..count {
            let unfit = Unread::Unfit(from.line + done);
            let numbers = line_at(self.numbers, at).ok_or(unfit)?;
            if !lines::fits_go(terms, nonterms, states, above, numbers) {
                return Err(unfit);
            }
            above = usize::from(numbers[0]) + 1;
            at += 1 + numbers.len();
        }
        Ok(Reached {
            at,
            line: from.line + count,
        })
    }

    // All lines of a state: its own, its items and its go lines.
    fn read_state(&self, from: Reached, sets: &mut [u64]) -> Result<Reached, Unread>
        requires { Inside self.now.numbers.now from }
        ensures { StateRead self.now.numbers.now self.now.lengths.now self.now.sizes from sets.old sets.new result }
    {
        let unfit = Unread::Unfit(from.line);
        let numbers = line_at(self.numbers, from.at).ok_or(unfit)?;
        if !lines::fits_state(numbers) {
            return Err(unfit);
        }
        let items = usize::from(numbers[0]);
        let gos = usize::from(numbers[1]);
        let first = Reached {
            at: from.at + 3,
            line: from.line + 1,
        };
        let after = self.read_items(first, items, sets)?;
        self.read_gos(after, gos)
    }

    // The lines of all states, from a place on. The states' places are noted, and the look-ahead sets if there is room
    // for all.
    pub(crate) fn read_states(
        &self,
        from: Reached,
        state_at: &mut [u16; Shape::MAX_STATES],
        sets: &mut [u64],
    ) -> Result<Sizes, Unread>
        requires { Inside self.now.numbers.now from }
        ensures { (ra : List ℕ) → Walked self.now.numbers.now from.at from.line (in_state self.now.sizes self.now.sizes.states 0 0 0) self.now.lengths.now ra state_at.old → Reads self.now.numbers.now ra state_at.new result × SetsRead self.now.numbers.now state_at.new sets.new result }
    {
        let mut reached = from;
        for s in 0..self.sizes.states {
            let next = self.read_state(reached, sets)?;
            state_at[s] = reached.at as u16;
            reached = next;
        }
        if reached.at < self.numbers.len() {
            return Err(Unread::Unfit(reached.line));
        }
        Ok(self.sizes)
    }
}
