// Which feet the cell that is being filled has: a bit for each number of a foot, eight to a byte.
ghost use Rattle.std.specs.Prelude.{◌≡◌, ◌/◌, ◌%◌, ◌^◌, ◌<◌, length, set};
ghost use Rattle.records.specs.Room.{mark_at, MarkAdded};

fn bit_of(number: usize) -> u8
    ensures { result ≡ 2 ^ (number % 8) }
{
    1u8 << (number & 7)
}

pub fn seen(marks: &[u8], number: usize) -> bool
    requires { number / 8 < length marks.now }
    ensures { result ≡ mark_at marks.now number }
{
    marks[number >> 3] & bit_of(number) != 0
}

pub fn mark(marks: &mut [u8], number: usize)
    requires { number / 8 < length marks.old }
    ensures { MarkAdded number marks.old marks.new }
{
    marks[number >> 3] |= bit_of(number);
}

// Forgets all eight numbers of a byte.
pub fn unmark(marks: &mut [u8], number: usize)
    requires { number / 8 < length marks.old }
    ensures { marks.new ≡ set marks.old (number / 8) 0 }
{
    marks[number >> 3] = 0;
}
