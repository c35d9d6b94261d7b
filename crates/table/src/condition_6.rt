// Condition 6: every state but 0 is the target of a go line of a lower-numbered state.
ghost use Rattle.std.specs.Prelude.{◌≡◌, ◌<◌, length};
ghost use Rattle.lines.specs.Limits.{max_states};
ghost use Rattle.theory.specs.Table.{state_at as nth_state};
ghost use Rattle.table.specs.Conditions.{LowestBreaker};
ghost use Rattle.table.specs.Conditions.Parts.{Marked};
ghost use Rattle.table.specs.Places.{table_in};

use crate::places::Table;
use lines::Shape;

// Marks the targets of a state's go lines.
fn mark_targets(t: &Table, s: usize, led: &mut [bool; Shape::MAX_STATES])
    requires { (s < t.now.sizes.states) × (length led.old ≡ max_states) }
    ensures { Marked (nth_state (table_in t.now.numbers.now) s).gos led.old led.new }
{
    let mut at = t.first_go(s);
    for _ in 0..t.go_count(s) {
        led[t.go_to(at)] = true;
        at += 3;
    }
}

// The lowest state that breaks condition 6, if one does.
pub(crate) fn breaks_6(t: &Table) -> Option<usize>
    ensures { LowestBreaker (table_in t.now.numbers.now) 6 result }
{
    let mut led = [false; Shape::MAX_STATES];
    led[0] = true;
    for s in 0..t.sizes.states {
        if !led[s] {
            return Some(s);
        }
        mark_targets(t, s, &mut led);
    }
    None
}
