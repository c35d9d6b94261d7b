// The last line of an input, and the count of lines.
ghost use Rattle.std.specs.Prelude.{◌≤◌, ◌≡◌, length, take, drop};
ghost use Rattle.input.specs.Box.{LastLine};
ghost use Rattle.input.specs.Box.Sizes.{line_count};

// LF
const LF: u8 = b'\n';

// The place at which the last line begins. An LF at the very end belongs to that line.
pub(crate) fn last_line(bytes: &[u8]) -> usize
    ensures within { result ≤ length bytes.now }
    ensures cut { LastLine bytes.now (take result bytes.now) (drop result bytes.now) }
{
    let Some((_, front)) = bytes.split_last() else {
        return 0;
    };
    match front.iter().rposition(|b| *b == LF) {
        Some(at) => at + 1,
        None => 0,
    }
}

// How many lines end in these bytes: the count of LFs.
pub(crate) fn line_count(bytes: &[u8]) -> usize
    ensures { result ≡ line_count bytes.now }
{
    bytes.iter().filter(|b| **b == LF).count()
}
