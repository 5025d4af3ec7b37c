// One item, if it is new.
ghost use Rattle.std.specs.Prelude.{[], ◌∷◌};
ghost use Rattle.records.specs.Room.{record_from};
ghost use Rattle.records.specs.Filling.{WorksOn, FootGiven, AddedTo};

use crate::record::{Foot, OpenCell, Origin};

// The count of items afterwards; none where the room is full. The number is the foot's, and has 16 bits (`as`: there is no `From`).
// Foot and number are read apart where a cell is finished, and so no struct that would be made and taken apart at each call.
// Room, marks and count are no struct: of a `&mut` in a field each contract has to say besides that it is the same one afterwards.
pub fn add(
    chart: &mut [u8],
    marks: &mut [u8],
    cell: OpenCell,
    foot: Foot,
    number: usize,
    origin: Origin,
    count: usize,
) -> Option<usize>
    requires { WorksOn cell chart.old marks.old count × FootGiven cell foot number }
    ensures { AddedTo cell (record_from cell foot origin ∷ [])
        chart.old marks.old count chart.new marks.new result }
{
    if crate::marks::seen(marks, number) {
        return Some(count);
    }
    if cell.room <= count {
        return None;
    }
    crate::marks::mark(marks, number);
    crate::record::put_record(chart, count, cell, foot, number as u16, origin);
    Some(count + 1)
}
