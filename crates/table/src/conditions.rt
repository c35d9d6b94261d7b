// The tests of a table whose lines fit, in document 01's order: the grammar first, then the seven conditions.
ghost use Rattle.table.specs.Check.{Answers};
ghost use Rattle.table.specs.Places.{table_in};

use crate::Fault;
use crate::aheads::Noted;
use crate::condition_1::breaks_1;
use crate::condition_2::breaks_2;
use crate::condition_3::breaks_3;
use crate::condition_4::breaks_4;
use crate::condition_5::breaks_5;
use crate::condition_6::breaks_6;
use crate::condition_7::breaks_7;
use crate::faults::{lowest_fault, lowest_ring};
use crate::firsts::firsts;

// The first fault of a table whose lines fit; if it has none, the count of its states.
// One `if let` for each: with `?` on a function of the condition and its breaker the answers did not close.
pub(crate) fn verdict(t: &Noted) -> Result<usize, Fault>
    ensures { Answers (table_in t.now.table.now.numbers.now) result }
{
    if let Some(symbol) = lowest_fault(t.table) {
        return Err(Fault::NotReduced(symbol));
    }
    if let Some(symbol) = lowest_ring(t.table) {
        return Err(Fault::Ring(symbol));
    }
    if let Some(state) = breaks_1(t.table) {
        return Err(Fault::Broken(1, state));
    }
    if let Some(state) = breaks_2(t.table) {
        return Err(Fault::Broken(2, state));
    }
    if let Some(state) = breaks_3(t.table) {
        return Err(Fault::Broken(3, state));
    }
    if let Some(state) = breaks_4(t, &firsts(t.table)) {
        return Err(Fault::Broken(4, state));
    }
    if let Some(state) = breaks_5(t) {
        return Err(Fault::Broken(5, state));
    }
    if let Some(state) = breaks_6(t.table) {
        return Err(Fault::Broken(6, state));
    }
    if let Some(state) = breaks_7(t) {
        return Err(Fault::Broken(7, state));
    }
    Ok(t.table.sizes.states)
}
