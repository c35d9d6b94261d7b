// A tail that is in order, by a table that passes.
ghost use Rattle.std.specs.Prelude.{◌≤◌, length};
ghost use Rattle.judge.specs.Judge.Into.{JudgesInto};
ghost use Rattle.judge.specs.Ready.{SomeReady, Roomy, Said};

use crate::Judgement;
use crate::run::run;
use forest::LookUps;
use lines::Shape;
use table::{ACTS, GOES, SYMBOLS, look_ups};

// A table of at most so many states gets look-ups of few entries: all entries are made zero for each judgement.
const FEW: usize = 16;

// Enough entries for tokens and few states.
const FEW_ACTS: usize = Shape::MAX_TERMS * FEW;

// Enough entries for symbols and few states.
const FEW_GOES: usize = SYMBOLS * FEW;

// A table of more states, but at most so many, gets look-ups of a middle size.
const MORE: usize = 64;

// Enough entries for tokens and so many states.
const MORE_ACTS: usize = Shape::MAX_TERMS * MORE;

// Enough entries for symbols and so many states.
const MORE_GOES: usize = SYMBOLS * MORE;

// Builds the look-ups of the table, in arrays with so many entries, and runs the forest over the tail, in a room of
// just the words that it calls for.
fn run_sized<const ENTRIES: usize, const TARGETS: usize>(
    table: &[u16],
    tail: &[u16],
    room: &mut [u32],
    states: usize,
) -> Judgement
    requires ready { SomeReady table.now tail.now (length room.old) states (length room.old) }
    requires roomy { Roomy states ENTRIES TARGETS }
    requires small { (ENTRIES ≤ ACTS) × (TARGETS ≤ GOES) }
    ensures { Said table.now tail.now result }
{
    let mut acts = [0u16; ENTRIES];
    let mut go = [0u16; TARGETS];
    let mut lens = [0u16; Shape::MAX_RULES];
    let mut lefts = [0u16; Shape::MAX_RULES];
    look_ups(table, &mut acts, &mut go, &mut lens, &mut lefts);
    let rows = LookUps {
        acts: &acts,
        go: &go,
        lens: &lens,
        lefts: &lefts,
        states,
    };
    run(room, &rows, tail)
}

// The same, with entries enough for the table's count of states.
fn run_table(table: &[u16], tail: &[u16], room: &mut [u32], states: usize) -> Judgement
    requires { SomeReady table.now tail.now (length room.old) states (length room.old) }
    ensures { Said table.now tail.now result }
{
    if states <= FEW {
        run_sized::<FEW_ACTS, FEW_GOES>(table, tail, room, states)
    } else if states <= MORE {
        run_sized::<MORE_ACTS, MORE_GOES>(table, tail, room, states)
    } else {
        run_sized::<ACTS, GOES>(table, tail, room, states)
    }
}

// The judgement of a tail that is in order: only the words that it calls for are lent to the run, and they are zero
// afterwards.
pub(crate) fn judge_ready(
    table: &[u16],
    tail: &[u16],
    room: &mut [u32],
    states: usize,
    words: usize,
) -> Judgement
    requires { SomeReady table.now tail.now (length room.old) states words }
    ensures { JudgesInto table.now tail.now room.old result room.new }
{
    let j = run_table(table, tail, &mut room[..words], states);
    room[..words].fill(0);
    j
}
