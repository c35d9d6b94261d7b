// What the programs share: an input that is read, numbers and bytes that stand in it, and what stands at the front of
// a slice.
#![tactic(auto)]

ghost use Rattle.std.specs.Prelude.{◌≡◌, ◌≢◌, ℕ, ◌%◌, ◌≤◌, ◌<◌, IfOk, IfSome, MatchOption, length, take, drop, slice_index};
ghost use Rattle.std.specs.Io.{ReadsAtMost};
ghost use Rattle.std.specs.Io.KnownBytes.{Consumes, IsAtEnd};
ghost use Rattle.std.specs.List.{take_while};
ghost use Rattle.runs.specs.Fields.{number_from};

use std::io;
use std::io::Read;

// A number above this one takes no digit more.
const MAX_NUMBER: usize = 100000;

// A number, and the place after it.
#[derive(Clone, Copy)]
pub struct Found {
    pub value: usize,
    pub next: usize,
}

// The number whose digits stand at a place, and the place after the byte that ends it.
pub fn field(s: &[u8], at: usize) -> Found
    ensures { result ≡ number_from 0 at (drop at s.now) }
{
    let mut value = 0;
    for i in at..s.len() {
        match s[i] {
            c @ b'0'..=b'9' if value <= MAX_NUMBER => value = 10 * value + usize::from(c - b'0'),
            _ => return Found { value, next: i + 1 },
        }
    }
    Found {
        value,
        next: at.max(s.len()),
    }
}

// The place of the first such byte.
fn first(s: &[u8], byte: u8) -> Option<usize>
    ensures within { IfSome result (λ at. at < length s.now) }
    ensures before { MatchOption result
        ((k : ℕ) → k < length s.now → slice_index s.now k ≢ byte)
        (λ at. (k : ℕ) → k < at → slice_index s.now k ≢ byte) }
    ensures found { IfSome result (λ at. slice_index s.now at ≡ byte) }
{
    s.iter().position(|b| *b == byte)
}

// The place of the first such byte from a place on.
pub fn find(s: &[u8], from: usize, byte: u8) -> Option<usize>
    ensures from { IfSome result (λ at. from ≤ at) }
    ensures within { IfSome result (λ at. at < length s.now) }
    ensures before { MatchOption result
        ((k : ℕ) → from ≤ k → k < length s.now → slice_index s.now k ≢ byte)
        (λ at. (k : ℕ) → from ≤ k → k < at → slice_index s.now k ≢ byte) }
    ensures found { IfSome result (λ at. slice_index s.now at ≡ byte) }
{
    let start = from.min(s.len());
    let at = first(&s[start..], byte)?;
    Some(start + at)
}

// The lowest 16 bits of a number.
pub fn low(x: usize) -> u16
    ensures { result ≡ x % 65536 }
{
    (x % 65536) as u16
}

// How many values at the front of a slice are this one.
pub fn leading<T: PartialEq>(s: &[T], value: &T) -> usize
    ensures count { result ≡ length (take_while (λ x. T.eq x value.now) s.now) }
    ensures within { result ≤ length s.now }
{
    s.iter().take_while(|x| *x == value).count()
}

// Reads until a slice is full or the input ends, and answers how many bytes it put at the front. `read_exact` does
// not tell how many where the input ends first.
pub fn read_full<R: Read>(reader: &mut R, buf: &mut [u8]) -> io::Result<usize>
    ensures bound { ReadsAtMost result buf.new }
    ensures bytes { IfOk result (λ n. Consumes (R.remaining reader.old) (R.remaining reader.new) (take n buf.new)) }
    ensures end { IfOk result (λ n. n < length buf.new → IsAtEnd (R.remaining reader.new)) }
{
    let mut done = 0;
    while done < buf.len() {
        let n = reader.read(&mut buf[done..])?;
        if n == 0 {
            return Ok(done);
        }
        done += n;
    }
    Ok(done)
}
