// The pass over a sheet: every line is read and taken in, and its numbers are kept.
ghost use Rattle.std.specs.Prelude.{◌≡◌, [], ◌*◌, ◌≤◌, length};
ghost use Rattle.lines.specs.Limits.{max_bytes};
ghost use Rattle.lines.specs.Lines.{start};
ghost use Rattle.sheet.specs.Sheet.{sheet_at};
ghost use Rattle.sheet.specs.Scan.{scan_of, Kept};

use crate::ReadError;
use crate::text::due_line;
use lines::{Due, Shape};

// All lines of a sheet. Their numbers are kept at the front of the array, for each line their count and then they.
pub(crate) fn scan(bytes: &[u8], kept: &mut [u16]) -> Result<usize, ReadError>
    requires { (length bytes.now ≤ max_bytes) × (length bytes.now ≤ 2 * length kept.old) }
    ensures value { result ≡ scan_of (sheet_at 0 [] start bytes.now) }
    ensures kept { Kept (sheet_at 0 [] start bytes.now) kept.new }
{
    let mut shape = Shape::start();
    let mut lengths = [0u8; Shape::MAX_RULES];
    let mut rest = bytes;
    let mut line = 0;
    let mut w = 0;
    while !rest.is_empty() {
        // A `match` and no `map_err`: of its closure the proof did not learn which refusal it gives.
        let (n, after) = match due_line(rest, shape.due, &mut kept[w + 1..]) {
            Ok(got) => got,
            Err(e) => return Err(e.at(line)),
        };
        let next = w + 1 + n;
        let numbers = &kept[w + 1..next];
        if !shape.line_fits(&lengths, numbers) {
            return Err(ReadError::Range(line));
        }
        shape = shape.take_in(&mut lengths, numbers);
        kept[w] = n as u16;
        w = next;
        line += 1;
        rest = after;
    }
    match shape.due {
        Due::End => Ok(w),
        _ => Err(ReadError::Form(line)),
    }
}
