// The pass over the value of a tail line: it finds how many tokens there are, or what is wrong. Nothing is written.
ghost use Rattle.std.specs.Prelude.{◌≡◌, List, ℕ, MatchOption};
ghost use Rattle.std.proofs.Math.Option.{none};
ghost use Rattle.sheet.specs.Text.{has, value_of};
ghost use Rattle.sheet.specs.Tail.{alone, tail_of, told_of};
ghost use Rattle.sheet.specs.Text.Tallies.{Tallied};

use crate::TailError;
use crate::text::{LF, MAX_WORD, word};

// The value behind the key of a tail line, and all that comes after it.
pub(crate) fn open(line: &[u8]) -> Option<&[u8]>
    ensures { MatchOption result (tail_of line.now ≡ none) (λ v. tail_of line.now ≡ alone (value_of v.now)) }
{
    line.strip_prefix(b"tail=")
}

// What is told of n numbers, the largest of which is top, behind whose LF come the bytes of a slice.
fn ended(rest: &[u8], n: usize, top: u32) -> Result<usize, TailError>
    ensures { (xs : List ℕ) → Tallied n top xs → result ≡ told_of (alone (has xs rest.now)) }
{
    if !rest.is_empty() {
        return Err(TailError::Form);
    }
    if MAX_WORD < top {
        return Err(TailError::Range);
    }
    Ok(n)
}

// What is told of the value up to the LF, after which nothing may come.
pub(crate) fn tell(s: &[u8]) -> Result<usize, TailError>
    ensures { result ≡ told_of (alone (value_of s.now)) }
{
    if let [LF, rest @ ..] = s {
        return ended(rest, 0, 0);
    }
    let mut rest = s;
    let mut n: usize = 0;
    let mut top: u32 = 0;
    while let Some((value, last, after)) = word(rest) {
        n += 1;
        top = top.max(value);
        if last {
            return ended(after, n, top);
        }
        rest = after;
    }
    Err(TailError::Form)
}
