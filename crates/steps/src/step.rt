// The deduction steps of one production over one split. In each contract the records that may be added are those of the model
// (chart_model), made from the records that stood when the cell was begun.
// Narrowed by `as`: positions and bounds. A record has two bytes or one for them, there is no `From`, and that they fit is proved.
ghost use Rattle.std.specs.Prelude.{◌-◌, ◌<◌};
ghost use Rattle.layout.specs.Bytes.{counted};
ghost use Rattle.card.specs.Productions.{action_from, rule_from};
ghost use Rattle.records.specs.Room.{foot_from};
ghost use Rattle.records.specs.Filling.{begun_with, FootGiven, Adding, AddedTo, Filling, AdvancedTo};
ghost use Rattle.steps.specs.Fits.{ActionFits, RuleFits};
ghost use Rattle.steps.specs.Candidates.{takes, acts, meets, produces, ElementFits, ElementsFit};

use crate::each::{Reach, take_over};
use crate::element::{Element, Elements, Side};
use crate::give::give_each;
use crate::keep::Kept;
use card::{Action, Card, Production};
use records::cells::Range;
use records::record::{Foot, OpenCell};

// Take: one dependent is enough, whatever it is. The record's origin is a keep's; the number is the foot's.
fn take_one(
    chart: &mut [u8],
    marks: &mut [u8],
    cell: OpenCell,
    side: Side,
    foot: Foot,
    number: usize,
    range: Range,
    count: usize,
) -> Option<usize>
    requires { Adding cell chart.old marks.old range count × FootGiven cell foot number }
    ensures { AddedTo cell (takes cell side (foot_from foot) (counted range.from (range.to - range.from)))
        chart.old marks.old count chart.new marks.new result }
{
    if range.to <= range.from {
        return Some(count);
    }
    let origin = Kept { side }.origin(range.from as u16);
    records::add::add(chart, marks, cell, foot, number, origin, count)
}

// Document 01 asks for the action as an enum, taken apart here: so no function is passed for it.
fn by_action(
    chart: &mut [u8],
    marks: &mut [u8],
    cells: &mut [u16],
    cell: OpenCell,
    side: Side,
    action: Action,
    dependent: Element,
    count: usize,
) -> Option<usize>
    requires { Filling cell chart.old marks.old cells.old count × ActionFits (action_from action) × ElementFits cell dependent }
    ensures { AdvancedTo cell (acts cell side action dependent (begun_with cell chart.old))
        chart.old marks.old cells.old count chart.new marks.new cells.new result }
{
    let number = dependent.number(cell);
    let range = records::cells::range_of(cells, number);
    match action {
        Action::Take(g) => {
            let foot = Foot {
                index: g,
                symbol: dependent.symbol,
                from: dependent.span.from as u8,
                to: dependent.span.to as u8,
            };
            let foot_number = Card::MAX_INDICES * number + usize::from(g) - 1;
            take_one(chart, marks, cell, side, foot, foot_number, range, count)
        }
        Action::Keep => {
            if records::cells::is_covered(cells, cell.number, number) {
                return Some(count);
            }
            let kept = Kept { side };
            take_over(chart, marks, cells, cell, kept, number, range, count)
        }
        Action::Give(g) => give_each(chart, marks, cells, cell, side, g, range, count),
    }
}

// The side's bare item over its stretch, if there is one, and then the action.
fn with_side(
    chart: &mut [u8],
    marks: &mut [u8],
    cells: &mut [u16],
    cell: OpenCell,
    p: u8,
    met: Elements,
    count: usize,
) -> Option<usize>
    requires { Filling cell chart.old marks.old cells.old count × ElementsFit cell met }
    ensures { AdvancedTo cell (meets cell p met (begun_with cell chart.old))
        chart.old marks.old cells.old count chart.new marks.new cells.new result }
{
    let Elements {
        side: beside,
        action,
        dependent,
    } = met;
    let range = records::cells::range_of(cells, beside.number(cell));
    let Some(bare) = range.bare else {
        return Some(count);
    };
    let side = Side {
        production: p,
        position: bare as u16,
    };
    by_action(chart, marks, cells, cell, side, action, dependent, count)
}

pub fn by_production(
    chart: &mut [u8],
    marks: &mut [u8],
    cells: &mut [u16],
    cell: OpenCell,
    k: usize,
    p: u8,
    rule: Production,
    count: usize,
) -> Option<usize>
    requires { Filling cell chart.old marks.old cells.old count × RuleFits cell.symbols (rule_from rule) × (cell.from < k) × (k < cell.to) }
    ensures { AdvancedTo cell (produces cell k p rule (begun_with cell chart.old))
        chart.old marks.old cells.old count chart.new marks.new cells.new result }
{
    let first = cell.span().before(k);
    let last = cell.span().after(k);
    let met = match rule {
        Production::SideFirst {
            left,
            action,
            side,
            dependent,
        } if left == cell.left => Elements {
            side: Element::over(first, side),
            action,
            dependent: Element::over(last, dependent),
        },
        Production::SideLast {
            left,
            action,
            dependent,
            side,
        } if left == cell.left => Elements {
            side: Element::over(last, side),
            action,
            dependent: Element::over(first, dependent),
        },
        _ => return Some(count),
    };
    with_side(chart, marks, cells, cell, p, met, count)
}
