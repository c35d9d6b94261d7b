// The reader, the check and the judge for programs in C: slices as a pointer and a length each, the outcome as one
// number.
#![tactic(auto)]

ghost use Rattle.std.specs.Prelude.{◌≡◌};
ghost use Rattle.judge.specs.Judge.{handed_read};
ghost use Rattle.entry.specs.Packed.{Fits, judgement_in, ReadsAs, ChecksAs, JudgesAs};

use judge::{Judgement, judge, refusal};
use sheet::{ReadError, read};
use table::check_table;

// A judgement in one number: the answer in its lowest 8 bits, the value in the next 24, the steps above them.
fn pack(told: Judgement) -> u64
    requires { Fits told }
    ensures { judgement_in result ≡ told }
{
    (told.steps * 4294967296 + told.value * 256 + told.answer) as u64
}

// The reader's answer handed out as a judgement; the reader makes no steps.
#[tactic(auto, unfolding(sheet::specs::Reads::answer_of))]
fn numbers_read(told: Result<usize, ReadError>) -> Judgement
    ensures { result ≡ handed_read told }
{
    match told {
        Ok(count) => refusal(0, count),
        Err(error) => Judgement::from(error),
    }
}

// Reads a sheet: its table's numbers go to the front of the slice, whose rest stays. A refusal changes nothing.
#[unsafe(no_mangle)]
pub extern "C" fn quyetlumon_read(bytes: &[u8], out: &mut [u16]) -> u64
    ensures { ReadsAs bytes.now out.old result out.new }
{
    pack(numbers_read(read(bytes, out)))
}

// Checks a table of numbers.
#[unsafe(no_mangle)]
pub extern "C" fn quyetlumon_check(table: &[u16]) -> u64
    ensures { ChecksAs table.now result }
{
    pack(Judgement::from(check_table(table)))
}

// Judges a tail by a table, in a lent room.
#[unsafe(no_mangle)]
pub extern "C" fn quyetlumon_judge(table: &[u16], tail: &[u16], room: &mut [u32]) -> u64
    ensures { JudgesAs table.now tail.now room.old result room.new }
{
    pack(judge(table, tail, room))
}
