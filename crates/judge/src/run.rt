// The run of the forest over a tail, token by token.
ghost use Rattle.judge.specs.Runs.{SomeRun, Runs, SomeGoOn, GoesOn};

use crate::Judgement;
use forest::{Forest, LookUps};

// The tokens after the first: the forest takes each in turn and stops at the one that empties it.
// By index, which is told where the forest is empty.
fn go_on(room: &mut [u32], rows: &LookUps, tail: &[u16]) -> Judgement
    requires { SomeGoOn room.old rows.now.acts.now rows.now.go.now rows.now.lens.now rows.now.lefts.now rows.now.states tail.now }
    ensures { GoesOn room.old rows.now.acts.now rows.now.go.now rows.now.lens.now rows.now.lefts.now rows.now.states tail.now result }
{
    let mut steps = 0;
    for i in 1..tail.len() {
        let f = Forest::next(room, rows, usize::from(tail[i]));
        steps += f.steps;
        if f.empty {
            return Judgement {
                answer: 1,
                value: i,
                steps,
            };
        }
    }
    Judgement {
        answer: 0,
        value: tail.len(),
        steps,
    }
}

// The whole tail. The empty tail is a piece; the first token starts the forest.
pub(crate) fn run(room: &mut [u32], rows: &LookUps, tail: &[u16]) -> Judgement
    requires { SomeRun room.old rows.now.acts.now rows.now.go.now rows.now.lens.now rows.now.lefts.now rows.now.states tail.now }
    ensures { Runs room.old rows.now.acts.now rows.now.go.now rows.now.lens.now rows.now.lefts.now rows.now.states tail.now result }
{
    let [first, ..] = tail else {
        return Judgement {
            answer: 0,
            value: 0,
            steps: 0,
        };
    };
    let f = Forest::start(room, rows, usize::from(*first));
    if f.empty {
        return Judgement {
            answer: 1,
            value: 0,
            steps: 0,
        };
    }
    go_on(room, rows, tail)
}
