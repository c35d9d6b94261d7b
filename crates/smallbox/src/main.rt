// Document 01's judging program: reads an input from standard input, and prints the answer, its value and the steps, a
// line each.
#![tactic(auto)]

use input::{SMALL_READ, judge_box, run};
use std::io;

fn main(rt: HostRuntime) -> io::Result<()> {
    run::<SMALL_READ, _, _, _>(&mut rt.stdin(), &mut io::writer(&rt), judge_box)
}
