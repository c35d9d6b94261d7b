// The three lines that a judging program prints.
ghost use Rattle.std.specs.Prelude.{◌+◌, ◌≤◌, ◌≡◌, length};
ghost use Rattle.io.specs.Counts.{IsPrefixLen};
ghost use Rattle.sheet.specs.Sheet.{in_front};
ghost use Rattle.input.specs.Shown.{max_places, shown_line, three_lines, Put};

use judge::Judgement;

// Bytes of three lines at the most: the keys with their `=`, three numbers of at most 20 digits, three LFs.
pub const LINES: usize = 82;

// Puts a text at a place, and answers the place after it.
// By hand: the promise of `three_lines` fixes every byte of the array, also behind the text.
fn put(out: &mut [u8], at: usize, text: &[u8]) -> usize
    requires { at + length text.now ≤ length out.old }
    ensures { Put out.old at text.now result out.new }
{
    let end = at + text.len();
    out[at..end].copy_from_slice(text);
    end
}

// Puts a number's line at a place, after its key with `=`, and answers the place after it.
fn put_line(out: &mut [u8], at: usize, key: &[u8], number: usize) -> usize
    requires { at + (length key.now + (max_places + 1)) ≤ length out.old }
    ensures within { result ≤ at + (length key.now + (max_places + 1)) }
    ensures line { Put out.old at (shown_line key.now number) result out.new }
{
    let mut digits = [0u8; 20];
    let n = io::decimal(number as u64, &mut digits);
    let a = put(out, at, key);
    let b = put(out, a, &digits[..n]);
    put(out, b, b"\n")
}

// Puts the three lines of a judgement at the front, and answers how many bytes they are. The rest is as it was.
pub fn three_lines(j: Judgement, out: &mut [u8; LINES]) -> usize
    ensures count { IsPrefixLen result out.new }
    ensures end { result ≡ length (three_lines j) }
    ensures text { out.new ≡ in_front (three_lines j) out.old }
{
    let a = put_line(out, 0, b"answer=", j.answer);
    let b = put_line(out, a, b"value=", j.value);
    put_line(out, b, b"steps=", j.steps)
}
