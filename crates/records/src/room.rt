// The lent room: how many records it holds, clearing it, and clearing the numbers of feet once the chart is built.
ghost use Rattle.std.specs.Prelude.{◌≡◌, ◌*◌, ◌≤◌, length, replicate};
ghost use Rattle.layout.specs.Records.{capacity as items_in};
ghost use Rattle.records.specs.Room.{numbers_cleared};

use crate::record::{RECORD, RECORD_POWER};

// The items that a room of so many bytes holds, with neither a division nor a remainder (document 02, Paper 3).
pub fn capacity(bytes: usize) -> usize
    ensures { result ≡ items_in bytes }
{
    (bytes >> RECORD_POWER).min(65535)
}

// Every byte is 0.
pub fn clear(room: &mut [u8])
    ensures { room.new ≡ replicate (length room.old) 0 }
{
    room.fill(0);
}

// The two last bytes of the first records are 0. A range and no `chunks_exact_mut`, which divides.
pub fn clear_numbers(chart: &mut [u8], count: usize)
    requires { 16 * count ≤ length chart.old }
    ensures { chart.new ≡ numbers_cleared count chart.old }
{
    for m in 0..count {
        chart[RECORD * m + 14] = 0;
        chart[RECORD * m + 15] = 0;
    }
}
