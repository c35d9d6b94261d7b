// Judges tails by the small box sheet's table and prints for each its name, the answer, the value, the steps; then
// the place up to which the room's words are zero afterwards, and the place up to which the words after them are as
// they were: the room's end. Before the call every word is JUNK.
//
// First the marked tails of document 01, then tails and rooms at the limits, refusals of which several rows hold, and
// the deepest trees that a tail can merge.
#![tactic(auto)]

use box_table::{BOX, GO_TARGET, STATES};
use judge::judge;
use lines::Shape;
use runs::leading;
use std::io;
use turns::TURNS;

mod box_table; // box_table.rt: the small box sheet's table
mod turns; // turns.rt: a table in which deep trees meet

// What stands on every word of a room before.
const JUNK: u32 = 7;

// Some words more than a tail calls for.
const MORE: usize = 5;

// A room has these words for each token of a tail, and for two more.
const TOKEN_WORDS: usize = Shape::STRIDE * STATES;

// The words of a room that a tail of the most tokens calls for.
const MOST_WORDS: usize = TOKEN_WORDS * (Shape::MAX_TAIL + 2);

// Those, and some more.
const WORDS: usize = MOST_WORDS + MORE;

// Half the most tokens.
const HALF: usize = 2048;

// The marked tails P1 to P9 of document 01.
const MARKED: [(&str, &[u16]); 9] = [
    ("P1", &[]),
    ("P2", &[0]),
    ("P3", &[2, 1]),
    ("P4", &[0, 1]),
    ("P5", &[1, 1]),
    ("P6", &[1, 2, 1]),
    ("P7", &[0, 2, 1]),
    ("P8", &[0, 2, 1, 0]),
    ("P9", &[3]),
];

// Where the cases are printed, and the room in which they are judged.
#[derive(Drop)]
struct Cases<'a, R> {
    rt: &'a R,
    room: &'a mut [u32; WORDS],
}

impl<R: Print> Cases<'_, R> {
    // Judges a tail by a table in the first `words` words of the room, and prints what came back and what became of
    // the room.
    fn judge_by(
        &mut self,
        table: &[u16],
        name: &str,
        tail: &[u16],
        words: usize,
    ) -> io::Result<()> {
        let Some(room) = self.room.get_mut(..words) else {
            return Ok(());
        };
        room.fill(JUNK);
        let j = judge(table, tail, room);
        let zeros = leading(room, &0);
        let end = zeros + leading(&room[zeros..], &JUNK);
        println!(self.rt; "{name} {} {} {} {zeros} {end}", j.answer, j.value, j.steps)
    }

    // The same by the small box sheet's table.
    fn judge(&mut self, name: &str, tail: &[u16], words: usize) -> io::Result<()> {
        self.judge_by(&BOX, name, tail, words)
    }

    // Judges the marked tails, in a room that has words for four tokens.
    fn marked(&mut self) -> io::Result<()> {
        for (name, tail) in MARKED {
            self.judge(name, tail, 6 * TOKEN_WORDS)?;
        }
        Ok(())
    }

    // Judges short tails in rooms of just the words that they call for, one word less, and none.
    fn short_tails(&mut self) -> io::Result<()> {
        let none = 2 * TOKEN_WORDS;
        let one = 3 * TOKEN_WORDS;
        self.judge("none", &[], none)?;
        self.judge("none-short", &[], none - 1)?;
        self.judge("none-no-room", &[], 0)?;
        self.judge("one", &[2], one)?;
        self.judge("one-short", &[2], one - 1)
    }

    // Judges tails of the most tokens, each of one kind, in such rooms.
    fn long_tails(&mut self) -> io::Result<()> {
        self.judge("all-opened", &[0; Shape::MAX_TAIL], MOST_WORDS)?;
        self.judge("all-closed", &[1; Shape::MAX_TAIL], MOST_WORDS)?;
        self.judge("all-between", &[2; Shape::MAX_TAIL], MOST_WORDS)?;
        self.judge("all-short", &[2; Shape::MAX_TAIL], MOST_WORDS - 1)?;
        self.judge("all-more", &[2; Shape::MAX_TAIL], WORDS)?;
        self.judge("one-too-many", &[2; Shape::MAX_TAIL + 1], WORDS)
    }

    // Judges tails that stop at their last token, or have a strange one there.
    fn last_tokens(&mut self) -> io::Result<()> {
        let mut tail = [0; Shape::MAX_TAIL];
        tail[Shape::MAX_TAIL - 1] = 1;
        self.judge("stops-last", &tail, MOST_WORDS)?;
        tail[Shape::MAX_TAIL - 1] = 3;
        self.judge("strange-last", &tail, MOST_WORDS)?;
        self.judge("strange-no-room", &tail, 0)
    }

    // Judges where several rows of refusals hold: the first of them is told.
    fn several_rows(&mut self) -> io::Result<()> {
        let tail = [3; Shape::MAX_TAIL + 1];
        self.judge("too-many-strange", &tail, 0)?;
        let mut broken = BOX;
        broken[GO_TARGET] = 8;
        self.judge_by(&broken, "broken-all", &tail, 0)?;
        self.judge_by(&[], "no-table", &tail, 0)
    }

    // Judges a tail that merges two trees as deep as a tail can make them.
    fn deep_once(&mut self) -> io::Result<()> {
        let mut tail = [0; Shape::MAX_TAIL];
        tail[Shape::MAX_TAIL - 2] = 2;
        tail[Shape::MAX_TAIL - 1] = 1;
        self.judge_by(TURNS, "deep-once", &tail, MOST_WORDS)
    }

    // Judges a tail that merges deep trees again at each of many tokens.
    fn deep_often(&mut self) -> io::Result<()> {
        let mut tail = [0; Shape::MAX_TAIL];
        tail[HALF..].fill(1);
        tail[HALF] = 2;
        self.judge_by(TURNS, "deep-often", &tail, MOST_WORDS)
    }
}

fn main(rt: HostRuntime) -> io::Result<()> {
    let mut cases = Cases {
        rt: &rt,
        room: &mut [0; WORDS],
    };
    cases.marked()?;
    cases.short_tails()?;
    cases.long_tails()?;
    cases.last_tokens()?;
    cases.several_rows()?;
    cases.deep_once()?;
    cases.deep_often()
}
