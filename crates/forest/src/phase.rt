// The reduce phase on a token, step by step.
ghost use Rattle.forest.specs.Phases.{SomeStep, Steps, SomePhase, Phases};

use crate::rows::LookUps;
use crate::steps::reduce;
use crate::trees::{Pick, choose};
use lines::Shape;

// The numbers of symbols: each has a mark, whether a long reduction to it was made in this phase.
const SYMBOLS: usize = Shape::MAX_TERMS + 1 + Shape::MAX_NONTERMS;

// At least as many steps as any phase makes.
const MOST_STEPS: usize = (1 + Shape::MAX_NONTERMS * (Shape::MAX_STATES + 1))
    * (Shape::MAX_STATES * (Shape::MAX_TAIL + 2))
    + Shape::MAX_STATES;

// One step: the picked tree is reduced by its rule. If the reduction is long, one-node trees are added unless its left
// side is marked, and it is marked.
fn step(room: &mut [u32], rows: &LookUps, marks: &mut [bool; SYMBOLS], pick: Pick)
    requires { SomeStep room.old rows.now.go.now rows.now.lens.now rows.now.lefts.now marks.old rows.now.states pick.root pick.rule }
    ensures { Steps room.old rows.now.go.now rows.now.lens.now rows.now.lefts.now marks.old rows.now.states pick.root pick.rule room.new marks.new }
{
    let left = rows.left(pick.rule);
    let length = rows.length(pick.rule);
    let new = !marks[left];
    if reduce(room, rows.targets(left), length, pick.root, new) {
        marks[left] = true;
    }
}

// The reduce phase: while some root reduces on the token, whose row of actions is given, a step is made with the
// lowest. The answer is the number of steps.
pub fn phase(room: &mut [u32], rows: &LookUps, acts: &[u16]) -> usize
    requires { SomePhase room.old acts.now rows.now.go.now rows.now.lens.now rows.now.lefts.now rows.now.states }
    ensures { Phases room.old acts.now rows.now.go.now rows.now.lens.now rows.now.lefts.now rows.now.states room.new result }
{
    let mut marks = [false; SYMBOLS];
    for n in 0..MOST_STEPS {
        let Some(pick) = choose(room, acts) else {
            return n;
        };
        step(room, rows, &mut marks, pick);
    }
    MOST_STEPS
}
