// The tables that the parts of an input make.
ghost use Rattle.std.specs.Prelude.{◌≤◌, length};

use runs::{Found, field, low};

// Puts the numbers that stand from a place on into all places of a slice, and answers the place after them.
fn put(s: &[u8], from: usize, places: &mut [u16]) -> usize {
    let mut next = from;
    for place in places {
        let number = field(s, next);
        *place = low(number.value);
        next = number.next;
    }
    next
}

// Puts so many numbers so many times at the front of a slice, as far as it reaches: how many, and the place after
// those of the last time. They are read once, and copied for the other times.
fn put_times(s: &[u8], from: usize, count: usize, times: usize, table: &mut [u16]) -> Found
    ensures { result.value ≤ length table.old }
{
    let room = table.len();
    let all = count.saturating_mul(times);
    let value = room.min(all);
    let once = value.min(count);
    let mut next = put(s, from, &mut table[..once]);
    for i in once..value {
        table[i] = table[i - once];
    }
    if room < all {
        // The time in which the slice gets full takes what is left; a time after it takes no number.
        let last = room % count;
        next = if room / count + 1 == times {
            put(s, from, &mut table[room - last..])
        } else {
            from
        };
    }
    Found { value, next }
}

// Makes a table of the parts from a place on: how many numbers it has, and the place after the parts.
pub(crate) fn table_of(s: &[u8], at: usize, parts: usize, table: &mut [u16]) -> Found
    ensures { result.value ≤ length table.old }
{
    let mut made = Found { value: 0, next: at };
    for _ in 0..parts {
        if s.len() <= made.next {
            break;
        }
        let times = field(s, made.next);
        let count = field(s, times.next);
        let part = put_times(
            s,
            count.next,
            count.value,
            times.value,
            &mut table[made.value..],
        );
        made.value += part.value;
        made.next = part.next;
    }
    made
}
