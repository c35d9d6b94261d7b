// The forest of stacks in a lent room: the empty forest, the forest of a tail's first token, and the forest after each
// later one. The room is the forest's whole state. A `Forest` tells what the judge asks of it.
#![tactic(auto)]

mod paths;
mod phase;
mod rows;
mod steps;
mod store;
mod trees;
mod words;

ghost use Rattle.std.specs.Prelude.{◌≡◌, true};
ghost use Rattle.forest.specs.Starts.{emptied, SomeStart, Starts};
ghost use Rattle.forest.specs.Tokens.{SomeTake, Takes};

use lines::Shape;
pub use paths::joined;
use phase::phase;
pub use rows::LookUps;
use steps::{extend, shift};
use words::{ASIDE, FREE, ROOTS, UNUSED, get};

// What is told of the forest that a room holds: whether it is empty, and the steps that the last token took.
#[derive(Clone, Copy)]
pub struct Forest {
    pub empty: bool,
    pub steps: usize,
}

impl Forest {
    // The empty forest: it has no tree, and no node of the room is used. A room without words for a node stays as it
    // is.
    pub fn empty(room: &mut [u32]) -> Forest
        ensures { (room.new ≡ emptied room.old) × (result.empty ≡ true) × (result.steps ≡ 0) }
    {
        if Shape::STRIDE <= room.len() {
            room[UNUSED] = 1;
            room[ROOTS] = 0;
            room[ASIDE] = 0;
            room[FREE] = 0;
        }
        Forest {
            empty: true,
            steps: 0,
        }
    }

    // The forest of the first token: a one-node tree for each target of a go line on it. No step is made.
    pub fn start(room: &mut [u32], rows: &LookUps, token: usize) -> Forest
        requires { SomeStart room.old rows.now.go.now rows.now.states token }
        ensures { Starts room.old rows.now.go.now rows.now.states token room.new result.empty result.steps }
    {
        Forest::empty(room);
        extend(room, rows.targets(token));
        Forest {
            empty: get(room, 0, ROOTS) == 0,
            steps: 0,
        }
    }

    // The forest after a later token: its reduce phase, then its shift phase.
    pub fn next(room: &mut [u32], rows: &LookUps, token: usize) -> Forest
        requires { SomeTake room.old rows.now.acts.now rows.now.go.now rows.now.lens.now rows.now.lefts.now rows.now.states token }
        ensures { Takes room.old rows.now.acts.now rows.now.go.now rows.now.lens.now rows.now.lefts.now rows.now.states token room.new result.empty result.steps }
    {
        let steps = phase(room, rows, rows.actions(token));
        shift(room, rows.targets(token));
        Forest {
            empty: get(room, 0, ROOTS) == 0,
            steps,
        }
    }
}
