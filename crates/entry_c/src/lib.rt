// The entries for programs in C as an archive: each export calls the function of that name in `entry`, and promises
// what it promises.
#![tactic(auto)]

ghost use Rattle.entry.specs.Packed.{ReadsAs, ChecksAs, JudgesAs};

// Reads a sheet: its table's numbers go to the front of the slice, whose rest stays. A refusal changes nothing.
#[unsafe(no_mangle)]
pub extern "C" fn quyetlumon_read(bytes: &[u8], out: &mut [u16]) -> u64
    ensures { ReadsAs bytes.now out.old result out.new }
{
    entry::quyetlumon_read(bytes, out)
}

// Checks a table of numbers.
#[unsafe(no_mangle)]
pub extern "C" fn quyetlumon_check(table: &[u16]) -> u64
    ensures { ChecksAs table.now result }
{
    entry::quyetlumon_check(table)
}

// Judges a tail by a table, in a lent room.
#[unsafe(no_mangle)]
pub extern "C" fn quyetlumon_judge(table: &[u16], tail: &[u16], room: &mut [u32]) -> u64
    ensures { JudgesAs table.now tail.now room.old result room.new }
{
    entry::quyetlumon_judge(table, tail, room)
}
