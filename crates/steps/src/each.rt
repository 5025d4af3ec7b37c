// The feet of a range of records, each taken over into the open cell. A keep takes over those of its dependents, a give those of a dependent's
// continuations: they differ only in the origin of the records that they make. Room, marks and cells are a parameter each here, in give.rt and in
// step.rt for the reason at `records::add`.
ghost use Rattle.std.specs.Prelude.{◌≡◌, ◌≤◌, ℕ};
ghost use Rattle.records.specs.declared.record.Origin.{Origin};
ghost use Rattle.records.specs.Filling.{begun_with, over_range, Adding, AddedTo, Filling, RangeAt, AdvancedTo};
ghost use Rattle.steps.specs.Candidates.{reached};

use records::cells::Range;
use records::record::{OpenCell, Origin};

// A step that takes over feet: a keep, or a give at one dependent.
pub trait Reach: Copy {
    ghost origin_at: { Self → ℕ → Origin };

    // The origin of the record that is made from the one at a position.
    fn origin(self, position: u16) -> Origin
        ensures { result ≡ origin_at self position };
}

// The foot of each record of the range.
fn add_each<R: Reach>(
    chart: &mut [u8],
    marks: &mut [u8],
    cell: OpenCell,
    reach: R,
    range: Range,
    count: usize,
) -> Option<usize>
    requires { Adding cell chart.old marks.old range count }
    ensures { AddedTo cell (over_range (reached cell (R.origin_at reach) (begun_with cell chart.old)) range)
        chart.old marks.old count chart.new marks.new result }
{
    let mut total = count;
    for position in range.from..range.to {
        let foot = records::record::foot_at(chart, position);
        let number = records::record::number_at(chart, position);
        // By `as`: a record has two bytes for a position, there is no `From`, and that it fits is proved.
        let origin = reach.origin(position as u16);
        total = records::add::add(chart, marks, cell, foot, number, origin, total)?;
    }
    Some(total)
}

// The same for all records of the cell of a number, whose range it is: the open cell covers that cell then. Who calls this looks first whether it
// does already.
pub fn take_over<R: Reach>(
    chart: &mut [u8],
    marks: &mut [u8],
    cells: &mut [u16],
    cell: OpenCell,
    reach: R,
    number: usize,
    range: Range,
    count: usize,
) -> Option<usize>
    requires { Filling cell chart.old marks.old cells.old count × RangeAt cell chart.old number range × (range.to ≤ cell.base) }
    ensures { AdvancedTo cell (over_range (reached cell (R.origin_at reach) (begun_with cell chart.old)) range)
        chart.old marks.old cells.old count chart.new marks.new cells.new result }
{
    if range.to <= range.from {
        return Some(count);
    }
    let total = add_each(chart, marks, cell, reach, range, count)?;
    records::cells::note_cover(cells, cell.number, number);
    Some(total)
}
