// The sheets that the parts of an input make.
ghost use Rattle.std.specs.Prelude.{◌≤◌, length};

use runs::{Found, field};

// Puts bytes at the front of a slice, as far as both reach, and answers how many.
fn put(bytes: &[u8], sheet: &mut [u8]) -> usize
    ensures { result ≤ length sheet.old }
{
    let count = bytes.len().min(sheet.len());
    sheet[..count].copy_from_slice(&bytes[..count]);
    count
}

// Makes a sheet of the parts from a place on: how many bytes it has, and the place after the parts.
pub(crate) fn sheet_of(s: &[u8], at: usize, parts: usize, sheet: &mut [u8]) -> Found
    ensures { result.value ≤ length sheet.old }
{
    let mut made = Found { value: 0, next: at };
    for _ in 0..parts {
        if s.len() <= made.next {
            break;
        }
        let times = field(s, made.next);
        let count = field(s, times.next);
        let from = count.next.min(s.len());
        let end = from.saturating_add(count.value).min(s.len());
        let bytes = &s[from..end];
        for _ in 0..times.value {
            let more = put(bytes, &mut sheet[made.value..]);
            if more == 0 {
                // No bytes, or no place: the times that are left add none either.
                break;
            }
            made.value += more;
        }
        made.next = end.saturating_add(1).min(s.len());
    }
    made
}
