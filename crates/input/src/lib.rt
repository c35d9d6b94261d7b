// The judging program's work: from the bytes of an input to the judgement, and to the lines that are printed.
#![tactic(auto)]

mod cut; // cut.rt: the last line, and the count of lines
mod program; // program.rt: reading, judging and printing
mod shown; // shown.rt: the three lines that are printed
mod within; // within.rt: an input within any limits

ghost use Rattle.std.specs.Prelude.{◌≤◌, ◌<◌, ◌^◌};
ghost use Rattle.lines.specs.Limits.{max_tail};
ghost use Rattle.input.specs.Box.{small_box, large_box, Boxes};

use judge::Judgement;
use lines::Shape;
pub use program::run;
pub use shown::{LINES, three_lines};
use within::judge_within;

// The small box: the most bytes of an input, numbers of a table, tokens of a tail, and the words of room.
pub const SMALL_BYTES: usize = 16000;

// One byte more than such an input may have, so that a longer one shows.
pub const SMALL_READ: usize = SMALL_BYTES + 1;

const SMALL_NUMBERS: usize = 8000;

const SMALL_TOKENS: usize = 400;

const SMALL_WORDS: usize = 8192;

// The large box: the same four. It has the table's own limits of numbers and tokens.
pub const LARGE_BYTES: usize = 90000;

// One byte more than such an input may have.
pub const LARGE_READ: usize = LARGE_BYTES + 1;

const LARGE_NUMBERS: usize = Shape::MAX_NUMBERS;

const LARGE_TOKENS: usize = Shape::MAX_TAIL;

const LARGE_WORDS: usize = 1048576;

// The judgement of an input within a box of these limits: arrays of just so many numbers, tokens and words are lent.
fn judge_sized<const BYTES: usize, const NUMBERS: usize, const TOKENS: usize, const WORDS: usize>(
    bytes: &[u8],
) -> Judgement
    requires numbers { NUMBERS < 2 ^ 32 }
    requires tokens { TOKENS ≤ max_tail }
    requires words { WORDS < 2 ^ 32 }
    ensures { Boxes (record { bytes = BYTES; numbers = NUMBERS; tokens = TOKENS; words = WORDS }) bytes.now result }
{
    let mut table = [0u16; NUMBERS];
    let mut tail = [0u16; TOKENS];
    let mut room = [0u32; WORDS];
    judge_within(bytes, BYTES, &mut table, &mut tail, &mut room)
}

// Document 01's program: the judgement of an input, within the small box.
#[tactic(auto, unfolding(crate::specs::Box::small_box))]
pub fn judge_box(bytes: &[u8]) -> Judgement
    ensures { Boxes small_box bytes.now result }
{
    judge_sized::<SMALL_BYTES, SMALL_NUMBERS, SMALL_TOKENS, SMALL_WORDS>(bytes)
}

// The judgement of an input within the large box.
#[tactic(auto, unfolding(crate::specs::Box::large_box))]
pub fn judge_large(bytes: &[u8]) -> Judgement
    ensures { Boxes large_box bytes.now result }
{
    judge_sized::<LARGE_BYTES, LARGE_NUMBERS, LARGE_TOKENS, LARGE_WORDS>(bytes)
}
