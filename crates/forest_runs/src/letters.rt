// Entries as letters: a space is 0, `a` is 1, `Z` is the highest. A print's numbers likewise, with a dot for 0.
ghost use Rattle.std.specs.Prelude.{◌≤◌, length};

use runs::Found;
use std::io;

// The entry of a byte.
fn entry_of(c: u8) -> u16 {
    match c {
        b' ' => 0,
        b'a'.. => u16::from(c - b'a') + 1,
        _ => u16::MAX,
    }
}

// Reads entries from a place on, up to a bar or the end of the line, as far as there is room for them: how many, and
// the place after what ends them.
pub(crate) fn read(s: &[u8], from: usize, entries: &mut [u16]) -> Found
    ensures { result.value ≤ length entries.old }
{
    let rest = s.get(from..).unwrap_or_default();
    let end = rest.iter().position(|c| matches!(*c, b'|' | b'\n'));
    let letters = &rest[..end.unwrap_or(rest.len())];
    for (entry, c) in entries.iter_mut().zip(letters) {
        *entry = entry_of(*c);
    }
    Found {
        value: letters.len().min(entries.len()),
        next: end.map_or(s.len(), |end| from + end + 1),
    }
}

// The letter of a print's number, and a question mark where no path has a letter for it.
fn letter_of(x: usize) -> u8 {
    match x {
        0 => b'.',
        1..=26 => b'a' + (x - 1) as u8,
        65535 => b'Z',
        _ => b'?',
    }
}

// Prints a print's numbers.
pub(crate) fn show(rt: &impl Print, numbers: &[usize]) -> io::Result<()> {
    for x in numbers {
        rt.write_all(&[letter_of(*x)])?;
    }
    Ok(())
}
