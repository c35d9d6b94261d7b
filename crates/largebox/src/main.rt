// The judging program with larger limits: reads an input from standard input, and prints the answer, its value and the
// steps, a line each.
#![tactic(auto)]

use input::{LARGE_READ, judge_large, run};
use std::io;

fn main(rt: HostRuntime) -> io::Result<()> {
    run::<LARGE_READ, _, _, _>(&mut rt.stdin(), &mut io::writer(&rt), judge_large)
}
