// Reads cases from standard input and prints what the table check tells of each.
//
// A case is one line of words, with one byte between two words: a name, the count of parts, then the parts, which
// make the table one after the other. A part is: how many times it stands there (at least once), the count of its
// numbers, its numbers. The input ends after the last case.
// For each case one line is printed: the name, the answer's number and value as document 01 gives them, and after
// answer 22 the first condition that is broken and the lowest state that breaks it.
#![tactic(auto)]

use runs::{field, find, read_full};
use std::io;
use table::{Fault, check_table};

mod cases; // cases.rt: the tables that the parts of an input make

const MAX_CASES: usize = 1000;

const MAX_INPUT: usize = 80000;

const MAX_NUMBERS: usize = 65535;

// A name, a table, and the place after the case.
#[derive(Clone, Copy)]
struct Case<'a> {
    name: &'a [u8],
    table: &'a [u16],
    next: usize,
}

// Prints what the check tells by document 01's number and value, and for a broken condition which one and where.
fn show_check(rt: &impl Print, check: Result<usize, Fault>) -> io::Result<()> {
    match check {
        Ok(states) => println!(rt; " 0 {states}"),
        Err(Fault::TooLong) => println!(rt; " 10 0"),
        Err(Fault::Unfit(line)) => println!(rt; " 12 {line}"),
        Err(Fault::NotReduced(symbol)) => println!(rt; " 20 {symbol}"),
        Err(Fault::Ring(symbol)) => println!(rt; " 21 {symbol}"),
        Err(Fault::Broken(condition, state)) => println!(rt; " 22 0 {condition} {state}"),
    }
}

impl<'a> Case<'a> {
    // The case that begins at a place, its table made in `numbers`.
    fn at(input: &'a [u8], at: usize, numbers: &'a mut [u16]) -> Option<Case<'a>> {
        let end = find(input, at, b' ')?;
        if end == at {
            return None;
        }
        let parts = field(input, end + 1);
        let made = cases::table_of(input, parts.next, parts.value, numbers);
        Some(Case {
            name: &input[at..end],
            table: &numbers[..made.value],
            next: made.next,
        })
    }

    // Checks the table, and prints the outcome.
    fn run(&self, rt: &impl Print) -> io::Result<()> {
        rt.write_all(self.name)?;
        show_check(rt, check_table(self.table))
    }
}

fn main(rt: HostRuntime) -> io::Result<()> {
    let mut input = [0u8; MAX_INPUT];
    let mut numbers = [0u16; MAX_NUMBERS];
    let n = read_full(&mut rt.stdin(), &mut input)?;
    let mut at = 0;
    for _ in 0..MAX_CASES {
        let Some(case) = Case::at(&input[..n], at, &mut numbers) else {
            break;
        };
        case.run(&rt)?;
        at = case.next;
    }
    Ok(())
}
