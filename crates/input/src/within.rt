// An input within any limits: the slices' lengths are the limits.
ghost use Rattle.std.specs.Prelude.{ℕ, ◌<◌, ◌≤◌, List, length};
ghost use Rattle.lines.specs.Limits.{max_tail};
ghost use Rattle.judge.specs.Judge.{JudgesUpTo};
ghost use Rattle.input.specs.Box.{Boxes};
ghost use Rattle.input.specs.Box.Sizes.{line_count};
ghost use Rattle.input.specs.Parts.{box_of, Tailed};

use crate::cut::{last_line, line_count};
use judge::{Judgement, judge, refusal};
use sheet::{TailError, read, read_tail};
use table::check_table;

// A tail of more tokens than `limit`: the table check's refusal goes before 30.
#[tactic(auto, using(crate::proofs::Boxing::many_refused), unfolding(table::specs::Check::numbers))]
fn too_many(table: &[u16], limit: usize) -> Judgement
    ensures { (tail : List ℕ) (room : ℕ) → limit < length tail → JudgesUpTo limit table.now tail room result }
{
    match check_table(table) {
        Ok(_) => refusal(30, limit),
        Err(fault) => Judgement::from(fault),
    }
}

// The last line, after the sheet was read as the numbers of a table: the tail line's form, its range, and then the
// judgement.
fn after_sheet(
    sheet: &[u8],
    line: &[u8],
    table: &[u16],
    tail: &mut [u16],
    room: &mut [u32],
) -> Judgement
    requires { length tail.old ≤ max_tail }
    ensures { Tailed (line_count sheet.now) tail.old room.old table.now line.now result }
{
    match read_tail(line, tail) {
        Ok(count) => judge(table, &tail[..count], room),
        Err(TailError::Form) => refusal(11, line_count(sheet)),
        Err(TailError::Range) => refusal(12, line_count(sheet)),
        Err(TailError::Many(_)) => too_many(table, tail.len()),
    }
}

// The whole input, of at most `most` bytes: the sheet is all before the last line and is read first.
#[tactic(auto, using(crate::proofs::Boxing::boxes_unread), unfolding(sheet::specs::Reads::answer_of))]
pub(crate) fn judge_within(
    bytes: &[u8],
    most: usize,
    table: &mut [u16],
    tail: &mut [u16],
    room: &mut [u32],
) -> Judgement
    requires { length tail.old ≤ max_tail }
    ensures { Boxes (box_of most table.old tail.old room.old) bytes.now result }
{
    if most < bytes.len() {
        return refusal(10, 0);
    }
    let cut = last_line(bytes);
    let (sheet, line) = bytes.split_at(cut);
    match read(sheet, table) {
        Ok(count) => after_sheet(sheet, line, &table[..count], tail, room),
        Err(error) => Judgement::from(error),
    }
}
