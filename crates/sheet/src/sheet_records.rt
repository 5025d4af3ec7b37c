// The records of a sheet: three bytes for each pair of a line, its line's place first.
ghost use Rattle.std.specs.Prelude.{◌≡◌, ◌*◌, ◌+◌, ◌≤◌, length, take};
ghost use Rattle.layout.specs.Written.{Wrote};
ghost use Rattle.sheet.specs.Placed.{placed, record_room};

use crate::MOST_LINES;
use check_pairs::plan::Passed;

// So many pairs a line has at most; it is a theorem that none has more.
const MOST_PAIRS: usize = 11;

const PAIR_ROOM: usize = 2 * MOST_PAIRS;

// Room for the records of every line.
const RECORD_ROOM: usize = MOST_LINES * 3 * MOST_PAIRS;

// The records so far, one after the other from the start of their room.
#[derive(Drop)]
pub struct Records {
    pub room: [u8; RECORD_ROOM],
    pub count: usize,
    ghost within: { 3 * count ≤ record_room },
}

impl Records {
    ghost use Rattle.sheet.specs.Reading.{RoomForLine, AddsRecords};

    pub fn new() -> Records
        ensures { result.count ≡ 0 }
    {
        Records {
            room: [0; RECORD_ROOM],
            count: 0,
        }
    }

    // The bytes of the records.
    pub fn bytes(&self) -> &[u8]
        ensures { result.now ≡ take (3 * self.now.count) self.now.room }
    {
        &self.room[..3 * self.count]
    }

    // A record for each two bytes of pairs. Not by `chunks_exact`, which divides: the archive has no division.
    fn put(&mut self, place: u8, pairs: &[u8])
        requires { 6 * self.old.count + 3 * length pairs.now ≤ 2 * record_room }
        ensures { Wrote self.old.room (3 * self.old.count) (placed place pairs.now) self.new.room (3 * self.new.count) }
    {
        let mut rest = pairs;
        while let [first, second, others @ ..] = rest {
            let here = 3 * self.count;
            self.room[here..here + 3].copy_from_slice(&[place, *first, *second]);
            self.count += 1;
            rest = others;
        }
    }

    // The records of a plan that passes Check, behind those that are there.
    pub fn add(&mut self, passed: Passed, place: u8)
        requires { RoomForLine self.old }
        ensures { AddsRecords passed.entry.card.bytes.now passed.entry.plan.now place self.old self.new }
    {
        let mut pairs = [0u8; PAIR_ROOM];
        // The room is long enough for the pairs of any plan that passes.
        let count = passed.pairs_of(&mut pairs).unwrap();
        self.put(place, &pairs[..2 * count]);
    }
}
