// Writes the numbers of a value that was found to be in its form.
ghost use Rattle.std.specs.Prelude.{length};
ghost use Rattle.sheet.specs.Putting.{Puttable, Put};

use crate::text::{DIGIT_0, LF};

// Writes the numbers of a value that is in its form to the front of a slice, whose rest stays.
pub(crate) fn put_value(s: &[u8], out: &mut [u16])
    requires { Puttable s.now (length out.old) }
    ensures { Put s.now out.old out.new }
{
    let mut n: usize = 0;
    let mut value: u32 = 0;
    for c in s {
        let c = *c;
        if DIGIT_0 <= c {
            value = 10 * value + u32::from(c - DIGIT_0);
        } else {
            out[n] = value as u16;
            n += 1;
            value = 0;
            if c == LF {
                return;
            }
        }
    }
}
