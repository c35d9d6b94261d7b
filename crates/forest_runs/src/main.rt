// Joins pairs of forests that stand on standard input, and prints what came out.
//
// A case is one line: a sign, the first forest's paths, a bar, the second's. A path is the letters of its states from
// the root down: `a` is state 0, and `Z` the highest state there is. A space stands between two paths. The sign says
// how many places are lent for the print: `=` just as many as are asked for, `-` one less, `+` some more. Before the
// call every place holds JUNK.
// For each case one line is printed: `joined` or `refused`; the print, a letter for a root and a dot for the end of
// some trees side by side; and how many places after it are as they were.
#![tactic(auto)]

ghost use Rattle.std.specs.Prelude.{◌≤◌, ◌*◌};
ghost use Rattle.forest_runs.specs.declared.TheConstants.{MAX_PLACES};

use forest::joined;
use lines::Shape;
use runs::{leading, read_full};
use std::io;

mod letters; // letters.rt: entries as letters

const MAX_CASES: usize = 1000;

const MAX_INPUT: usize = 100000;

// One entry more than a forest may have.
const MAX_ENTRIES: usize = Shape::MAX_TAIL + 1;

// Some places more than a print asks for.
const MORE: usize = 3;

const MAX_PLACES: usize = 4 * MAX_ENTRIES + 1 + MORE;

// What every place holds before: more than any print has.
const JUNK: usize = 70000;

// Two forests' entries, how many places are lent for the print, and the place after the case.
#[derive(Clone, Copy)]
struct Case<'a> {
    first: &'a [u16],
    second: &'a [u16],
    places: usize,
    next: usize,
    ghost fits: { places ≤ MAX_PLACES },
}

// The places that are lent, by the sign, where so many entries are given.
fn lent(sign: u8, entries: usize) -> usize
    requires { entries ≤ 2 * MAX_ENTRIES }
    ensures { result ≤ MAX_PLACES }
{
    let asked = 2 * entries + 1;
    match sign {
        b'-' => asked - 1,
        b'+' => asked + MORE,
        _ => asked,
    }
}

// Prints what was told, and what became of the places.
fn tell(rt: &impl Print, told: bool, out: &[usize]) -> io::Result<()> {
    let end = out.iter().position(|x| *x == JUNK).unwrap_or(out.len());
    print!(rt; "{} ", if told { "joined" } else { "refused" })?;
    letters::show(rt, &out[..end])?;
    println!(rt; " {}", leading(&out[end..], &JUNK))
}

impl<'a> Case<'a> {
    // The case that begins at a place, its entries put into two slices.
    fn at(
        input: &[u8],
        at: usize,
        first: &'a mut [u16; MAX_ENTRIES],
        second: &'a mut [u16; MAX_ENTRIES],
    ) -> Option<Case<'a>> {
        let sign = *input.get(at)?;
        let one = letters::read(input, at + 1, first);
        let two = letters::read(input, one.next, second);
        Some(Case {
            first: &first[..one.value],
            second: &second[..two.value],
            places: lent(sign, one.value + two.value),
            next: two.next,
        })
    }

    // Joins the forests in the places that are lent of `out`, and prints the outcome.
    fn run(&self, rt: &impl Print, out: &mut [usize; MAX_PLACES]) -> io::Result<()> {
        let out = &mut out[..self.places];
        out.fill(JUNK);
        let told = joined(self.first, self.second, out);
        tell(rt, told, out)
    }
}

fn main(rt: HostRuntime) -> io::Result<()> {
    let mut input = [0u8; MAX_INPUT];
    let mut first = [0u16; MAX_ENTRIES];
    let mut second = [0u16; MAX_ENTRIES];
    let mut out = [0usize; MAX_PLACES];
    let n = read_full(&mut rt.stdin(), &mut input)?;
    let mut at = 0;
    for _ in 0..MAX_CASES {
        let Some(case) = Case::at(&input[..n], at, &mut first, &mut second) else {
            break;
        };
        case.run(&rt, &mut out)?;
        at = case.next;
    }
    Ok(())
}
