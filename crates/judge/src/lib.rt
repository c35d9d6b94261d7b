// The judge of tails: every table, tail and room gets its numbered answer.
#![tactic(auto)]

mod numbers; // numbers.rt: document 01's numbers for a refusal
mod ready; // ready.rt: a tail that is in order, by a table that passes
mod run; // run.rt: the forest's run over a tail
mod tail; // tail.rt: the tokens of a tail

ghost use Rattle.table.specs.Check.{Checks};
ghost use Rattle.judge.specs.Judge.Into.{JudgesInto};

use lines::Shape;
pub use numbers::refusal;
use ready::judge_ready;
use table::check_table;
use tail::first_strange;

// What comes back: document 01's answer, its value, and the forest's own count of steps.
// Numbers and no enum: they are document 01's, and the promises, the printed lines and the entries for C speak of them.
#[derive(Clone, Copy)]
pub struct Judgement {
    pub answer: usize,
    pub value: usize,
    pub steps: usize,
}

// The place of a table's count of kinds: the first line's only number, after that line's count.
const TERMS_AT: usize = 1;

// The judgement by a table that passes: too many tokens, a token that is none, too little room, or the forest's own
// judgement.
fn judge_tail(table: &[u16], tail: &[u16], room: &mut [u32], states: usize) -> Judgement
    requires { Checks table.now (Ok states) }
    ensures { JudgesInto table.now tail.now room.old result room.new }
{
    let n = tail.len();
    if Shape::MAX_TAIL < n {
        return refusal(30, Shape::MAX_TAIL);
    }
    if let Some(i) = first_strange(tail, usize::from(table[TERMS_AT])) {
        return refusal(31, i);
    }
    let words = Shape::STRIDE * (states * (n + 2));
    if room.len() < words {
        return refusal(32, words);
    }
    judge_ready(table, tail, room, states, words)
}

// Judges a tail by a table, in a lent room. All the table check's tests come first, and their refusal is handed
// straight out.
pub fn judge(table: &[u16], tail: &[u16], room: &mut [u32]) -> Judgement
    ensures { JudgesInto table.now tail.now room.old result room.new }
{
    match check_table(table) {
        Ok(states) => judge_tail(table, tail, room, states),
        Err(fault) => Judgement::from(fault),
    }
}
