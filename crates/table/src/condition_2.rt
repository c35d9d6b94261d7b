// Condition 2: in a state no two items agree in rule and dot.
ghost use Rattle.table.specs.Conditions.{LowestBreaker};
ghost use Rattle.table.specs.Places.{table_in};

use crate::places::Table;
use crate::spots::{CORES, note_items};

// The lowest state that breaks condition 2, if one does.
// A `for` and no `find`, as for 5 and 6: what one state notes the next one reads, and a closure may not keep that.
pub(crate) fn breaks_2(t: &Table) -> Option<usize>
    ensures { LowestBreaker (table_in t.now.numbers.now) 2 result }
{
    let mut spots = [0u16; CORES];
    for s in 0..t.sizes.states {
        if !note_items(t, s, &mut spots) {
            return Some(s);
        }
    }
    None
}
