// Give: the feet of the continuations of each dependent that has the index.
ghost use Rattle.std.specs.Prelude.{◌≤◌, ◌<◌};
ghost use Rattle.records.specs.Filling.{begun_with, over_range, Filling, AdvancedTo};
ghost use Rattle.steps.specs.Candidates.{gives, continued_origin};

use crate::each::{Reach, take_over};
use crate::element::Side;
use card::Card;
use records::cells::Range;
use records::record::{OpenCell, Origin, RECORD};

// From a continuation of the dependent at a position.
#[derive(Clone, Copy)]
struct Continued {
    side: Side,
    dependent: u16,
}

impl Reach for Continued {
    ghost origin_at = { λ c z. continued_origin c.side c.dependent z };

    fn origin(self, position: u16) -> Origin {
        Origin {
            production: self.side.production,
            side: self.side.position,
            dependent: self.dependent,
            continuation: position,
        }
    }
}

// Those of the dependent at y, if its index is the one to give. The cell of its foot is the eighth part of the foot's number; its
// records are the continuations.
fn give_one(
    chart: &mut [u8],
    marks: &mut [u8],
    cells: &mut [u16],
    cell: OpenCell,
    side: Side,
    g: u8,
    y: usize,
    count: usize,
) -> Option<usize>
    requires { Filling cell chart.old marks.old cells.old count × (y < cell.base) × (1 ≤ g) }
    ensures { AdvancedTo cell (gives cell side g (begun_with cell chart.old) y)
        chart.old marks.old cells.old count chart.new marks.new cells.new result }
{
    let given = chart[RECORD * y + 1];
    if given != g {
        return Some(count);
    }
    let number = records::record::number_at(chart, y) >> Card::INDICES_POWER;
    if records::cells::is_covered(cells, cell.number, number) {
        return Some(count);
    }
    // By `as`: a record has two bytes for a position, there is no `From`, and that it fits is proved.
    let reach = Continued {
        side,
        dependent: y as u16,
    };
    let range = records::cells::range_of(cells, number);
    take_over(chart, marks, cells, cell, reach, number, range, count)
}

// Those of every dependent of a range.
pub fn give_each(
    chart: &mut [u8],
    marks: &mut [u8],
    cells: &mut [u16],
    cell: OpenCell,
    side: Side,
    g: u8,
    range: Range,
    count: usize,
) -> Option<usize>
    requires { Filling cell chart.old marks.old cells.old count × (range.to ≤ cell.base) × (1 ≤ g) }
    ensures { AdvancedTo cell (over_range (gives cell side g (begun_with cell chart.old)) range)
        chart.old marks.old cells.old count chart.new marks.new cells.new result }
{
    let mut total = count;
    for y in range.from..range.to {
        total = give_one(chart, marks, cells, cell, side, g, y, total)?;
    }
    Some(total)
}
