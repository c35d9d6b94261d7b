// The text of one line: its key, and the numbers of its value up to the LF.
ghost use Rattle.std.specs.Prelude.{◌≡◌, ◌+◌, ◌*◌, ◌≤◌, length};
ghost use Rattle.lines.specs.Shape.Shaped.{due_of};
ghost use Rattle.sheet.specs.Text.{digits_of, value_of, line_of, refused_at, Counted, NumberOf, WordOf};
ghost use Rattle.sheet.specs.Text.{OpeningOf, Opened, Told};

use crate::ReadError;
use lines::Due;

pub(crate) const LF: u8 = b'\n';

const SPACE: u8 = b' ';

pub(crate) const DIGIT_0: u8 = b'0';

// Digits of a number.
const MAX_DIGITS: usize = 5;

// The largest number of 16 bits.
pub(crate) const MAX_WORD: u32 = 65535;

// Why a line is refused.
#[derive(Clone, Copy)]
pub(crate) enum LineError {
    // It is not the line that is due, or its numbers are not in their form.
    Form,
    // Its numbers are in their form, but one is above 16 bits.
    Range,
}

impl LineError {
    // Why the sheet is refused whose line of this number is.
    pub(crate) fn at(self, line: usize) -> ReadError
        ensures { result ≡ refused_at self line }
    {
        match self {
            LineError::Form => ReadError::Form(line),
            LineError::Range => ReadError::Range(line),
        }
    }
}

// The digits that bytes begin with: how many, at most one more than a number has, and what they say.
fn digits(s: &[u8]) -> (usize, u32)
    ensures counted { Counted (digits_of s.now) result.0 result.1 }
    ensures within { result.0 ≤ length s.now }
{
    let mut value: u32 = 0;
    for (count, c) in s.iter().enumerate() {
        let c = *c;
        if !c.is_ascii_digit() {
            return (count, value);
        }
        if count == MAX_DIGITS {
            return (count + 1, value);
        }
        value = 10 * value + u32::from(c - DIGIT_0);
    }
    (s.len(), value)
}

// The number that bytes begin with, and what comes after it. Its form: 1 to 5 digits, no leading zero except 0 itself.
fn number(s: &[u8]) -> Option<(u32, &[u8])>
    ensures { NumberOf s.now result }
{
    let (count, value) = digits(s);
    if count == 0 || MAX_DIGITS < count {
        return None;
    }
    if 1 < count && s[0] == DIGIT_0 {
        return None;
    }
    Some((value, &s[count..]))
}

// The number that bytes begin with, whether the LF comes after it or a space, and what comes after that.
// The three are taken apart where they are used, at two places.
// Without the mark it is called, not inlined: 26 more instructions for each token of a tail.
#[inline]
pub(crate) fn word(s: &[u8]) -> Option<(u32, bool, &[u8])>
    ensures { WordOf s.now result }
{
    let (value, rest) = number(s)?;
    match rest {
        [LF, rest @ ..] => Some((value, true, rest)),
        [SPACE, rest @ ..] => Some((value, false, rest)),
        _ => None,
    }
}

// What stands in front of the value of the line that is due.
#[tactic(auto, unfolding(lines::specs::Lines::key, lines::specs::Lines::is_end))]
fn opening(due: Due) -> Option<&'static [u8]>
    ensures { OpeningOf (due_of due) result }
{
    match due {
        Due::Terms => Some(b"terms="),
        Due::Nonterms => Some(b"nonterms="),
        Due::Rules => Some(b"rules="),
        Due::Rule => Some(b"rule="),
        Due::States => Some(b"states="),
        Due::State => Some(b"state="),
        Due::Item => Some(b"item="),
        Due::Go => Some(b"go="),
        Due::End => None,
    }
}

// The value of the line that is due, and all that comes after it.
fn open_due(s: &[u8], due: Due) -> Option<&[u8]>
    ensures { Opened (due_of due) s.now result }
{
    s.strip_prefix(opening(due)?)
}

// The numbers of a value up to the LF, which are kept at the front of an array: how many, and what comes after the LF.
fn numbers<'a>(s: &'a [u8], kept: &mut [u16]) -> Result<(usize, &'a [u8]), LineError>
    requires { length s.now ≤ 2 * length kept.old }
    ensures { Told (value_of s.now) 0 s.now kept.old result kept.new }
{
    if let [LF, rest @ ..] = s {
        return Ok((0, rest));
    }
    let mut rest = s;
    let mut n: usize = 0;
    let mut top: u32 = 0;
    while let Some((value, last, after)) = word(rest) {
        // The low 16 bits. A line with a larger number is refused at its end, since its form goes before its range.
        kept[n] = (value % (MAX_WORD + 1)) as u16;
        n += 1;
        top = top.max(value);
        if last {
            return if top <= MAX_WORD {
                Ok((n, after))
            } else {
                Err(LineError::Range)
            };
        }
        rest = after;
    }
    Err(LineError::Form)
}

// The numbers of the line that is due, which are kept at the front of an array: how many, and what comes after it.
pub(crate) fn due_line<'a>(
    s: &'a [u8],
    due: Due,
    kept: &mut [u16],
) -> Result<(usize, &'a [u8]), LineError>
    requires { length s.now ≤ 2 * length kept.old + 2 }
    ensures { Told (line_of (due_of due) s.now) 2 s.now kept.old result kept.new }
{
    let value = open_due(s, due).ok_or(LineError::Form)?;
    numbers(value, kept)
}
