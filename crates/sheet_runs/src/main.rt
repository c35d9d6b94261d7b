// Reads cases from standard input and prints what the reader of sheets answers for each.
//
// A case begins with a line of three words: the count of places of the slice, the count of parts, a name. Then come
// the parts, which make the sheet one after the other. A part begins with a line of two words: how many times it
// stands there, and the count of its bytes. Then come its bytes, and one byte that is passed over. The input ends
// after the last case.
// For each case one line is printed: the name, the answer's number and value, and a sum over the whole slice as the
// reader left it.
#![tactic(auto)]

use runs::{field, find, read_full};
use sheet::ReadError;
use std::io;

mod cases; // cases.rt: the sheets that the parts of an input make
mod slices; // slices.rt: a slice before and after

const MAX_CASES: usize = 1000;

const MAX_INPUT: usize = 80000;

const MAX_SHEET: usize = 60001;

const MAX_PLACES: usize = 30000;

// A name, how many places the slice has, a sheet, and the place after the case.
#[derive(Clone, Copy)]
struct Case<'a> {
    name: &'a [u8],
    places: usize,
    sheet: &'a [u8],
    next: usize,
}

// The number and value by which document 01 gives what the reader answers.
fn numbers_of(answer: Result<usize, ReadError>) -> (usize, usize) {
    match answer {
        Ok(count) => (0, count),
        Err(ReadError::TooLong) => (10, 0),
        Err(ReadError::Form(line)) => (11, line),
        Err(ReadError::Range(line)) => (12, line),
        Err(ReadError::Short(needed)) => (13, needed),
    }
}

impl<'a> Case<'a> {
    // The case that begins at a place, its sheet made in `sheet`.
    fn at(input: &'a [u8], at: usize, sheet: &'a mut [u8]) -> Option<Case<'a>> {
        let places = field(input, at);
        let parts = field(input, places.next);
        let end = find(input, parts.next, b'\n')?;
        if end == parts.next {
            return None;
        }
        let made = cases::sheet_of(input, end + 1, parts.value, sheet);
        Some(Case {
            name: &input[parts.next..end],
            places: places.value,
            sheet: &sheet[..made.value],
            next: made.next,
        })
    }

    // Reads the sheet into a slice that holds numbers of its own, and prints the outcome.
    fn run(&self, rt: &impl Print, out: &mut [u16]) -> io::Result<()> {
        slices::mark(out);
        let (number, value) = numbers_of(sheet::read(self.sheet, out));
        println!(rt; " {number} {value} {}", slices::sum(out))
    }
}

fn main(rt: HostRuntime) -> io::Result<()> {
    let mut input = [0u8; MAX_INPUT];
    let mut sheet = [0u8; MAX_SHEET];
    let mut out = [0u16; MAX_PLACES];
    let n = read_full(&mut rt.stdin(), &mut input)?;
    let mut at = 0;
    for _ in 0..MAX_CASES {
        let Some(case) = Case::at(&input[..n], at, &mut sheet) else {
            break;
        };
        rt.write_all(case.name)?;
        let Some(out) = out.get_mut(..case.places) else {
            break;
        };
        case.run(&rt, out)?;
        at = case.next;
    }
    Ok(())
}
