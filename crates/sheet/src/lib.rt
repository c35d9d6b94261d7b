// The reader of sheets: from bytes to a table's numbers, and from a tail line to a tail's tokens.
#![tactic(auto)]

ghost use Rattle.std.specs.Prelude.{◌*◌, ◌≤◌, length};
ghost use Rattle.lines.specs.Limits.{max_bytes};
ghost use Rattle.sheet.specs.Reads.{ReadsInto, answer_of};
ghost use Rattle.sheet.specs.Tail.{ReadsTail};

use lines::Shape;

mod text; // text.rt: the text of one line: its key, its numbers
mod scan; // scan.rt: the pass over a sheet, which takes every line in and keeps its numbers
mod put; // put.rt: the numbers of a value written to a slice
mod tail; // tail.rt: the pass over a tail line, which finds what it says

// Why a sheet is refused. A line is told by its number, from 0.
#[derive(Clone, Copy, Debug, PartialEq, Eq)]
pub enum ReadError {
    // The sheet has too many bytes.
    TooLong,
    // A line is missing, extra, without its LF, or of a wrong key or number form.
    Form(usize),
    // A line's count of numbers or a range is wrong.
    Range(usize),
    // The slice is too short: the count of numbers needed.
    Short(usize),
}

// Places for the numbers of a small sheet while it is read. Two bytes of a sheet give one number at most.
const FEW: usize = 600;

// The same for a sheet of middle size.
const SOME: usize = 6000;

// The same for any sheet.
const MANY: usize = 30000;

// Reads a sheet with an array that keeps its numbers until all lines are known to be in order.
fn read_in<const N: usize>(bytes: &[u8], out: &mut [u16]) -> Result<usize, ReadError>
    requires { (length bytes.now ≤ 2 * N) × (2 * N ≤ max_bytes) }
    ensures { ReadsInto bytes.now out.old (answer_of result) out.new }
{
    let mut kept = [0u16; N];
    let count = scan::scan(bytes, &mut kept)?;
    if count > out.len() {
        return Err(ReadError::Short(count));
    }
    out[..count].copy_from_slice(&kept[..count]);
    Ok(count)
}

// Reads a sheet: its table's numbers go to the front of the slice, whose rest stays. A refusal changes nothing.
pub fn read(bytes: &[u8], out: &mut [u16]) -> Result<usize, ReadError>
    ensures { ReadsInto bytes.now out.old (answer_of result) out.new }
{
    let length = bytes.len();
    if Shape::MAX_BYTES < length {
        Err(ReadError::TooLong)
    } else if length <= 2 * FEW {
        read_in::<FEW>(bytes, out)
    } else if length <= 2 * SOME {
        read_in::<SOME>(bytes, out)
    } else {
        read_in::<MANY>(bytes, out)
    }
}

// Why a tail line is refused.
#[derive(Clone, Copy, Debug, PartialEq, Eq)]
pub enum TailError {
    // No LF ends it, or it has another key, a wrong number form, or bytes after its LF.
    Form,
    // A number is above 65,535.
    Range,
    // There are more tokens than the slice holds: how many.
    Many(usize),
}

// Reads a tail line: its tokens go to the front of the slice, whose rest stays. A refusal changes nothing.
pub fn read_tail(line: &[u8], out: &mut [u16]) -> Result<usize, TailError>
    ensures { ReadsTail line.now out.old result out.new }
{
    let Some(value) = tail::open(line) else {
        return Err(TailError::Form);
    };
    let count = tail::tell(value)?;
    if out.len() < count {
        return Err(TailError::Many(count));
    }
    if count != 0 {
        put::put_value(value, out);
    }
    Ok(count)
}
