// A judging program's work, whatever it reads from and writes to.
ghost use Rattle.std.specs.Prelude.{◌<◌, ◌^◌, OnOk};
ghost use Rattle.std.specs.Fn.{FnReturnsAt};
ghost use Rattle.input.specs.Told.{Told};

use crate::shown::{LINES, three_lines};
use judge::Judgement;
use runs::read_full;
use std::io;
use std::io::{Read, Write};

// Reads an input of up to SIZE bytes, judges it, and writes the three lines of the judgement.
pub fn run<const SIZE: usize, R: Read, W: Write, F: Fn(&[u8]) -> Judgement>(
    reader: &mut R,
    writer: &mut W,
    judge: F,
) -> io::Result<()>
    requires size { SIZE < 2 ^ 32 }
    requires judges { F.IsAlwaysCallable judge }
    ensures { OnOk result
        (Told SIZE (R.remaining reader.old) (R.remaining reader.new) (W.contents writer.old) (W.contents writer.new)
        (FnReturnsAt F.Fn judge)) }
{
    let mut bytes = [0u8; SIZE];
    let count = read_full(reader, &mut bytes)?;
    let judgement = judge(&bytes[..count]);
    let mut lines = [0u8; LINES];
    let end = three_lines(judgement, &mut lines);
    writer.write_all(&lines[..end])
}
