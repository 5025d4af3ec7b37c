// The table of cells: four numbers for each, side by side in one list, which is cleared as one; a struct of four would have its laws for a list of
// numbers and once more for the fields. Where its records stand, from and to; one more than the position of its bare item, or 0; and
// its cover: 0, or one more than the number of a cell that has every foot of it. Numbers and no options, since the memory is fixed. They are below
// 65,536, which each contract asks: `as` has nothing to cut off, there is no `From`, and `try_from` would test it once more.
ghost use Rattle.std.specs.Prelude.{◌≡◌, ◌+◌, ◌*◌, ◌≤◌, ◌<◌, length};
ghost use Rattle.records.specs.Cells.{number_of, numbered_by, range_in, with_range, cover_in, with_cover};
ghost use Rattle.records.specs.Cells.{covered_in, noted_anew};

#[derive(Clone, Copy)]
pub struct Range {
    pub from: usize,
    pub to: usize,
    pub bare: Option<usize>,
}

// The numbers of a cell.
pub const NUMBERS: usize = 4;

// The range of a cell.
pub fn range_of(cells: &[u16], cell: usize) -> Range
    requires { 4 * cell + 4 ≤ length cells.now }
    ensures { result ≡ range_in cells.now cell }
{
    let at = NUMBERS * cell;
    Range {
        from: usize::from(cells[at]),
        to: usize::from(cells[at + 1]),
        bare: usize::from(cells[at + 2]).checked_sub(1),
    }
}

pub fn put_range(cells: &mut [u16], cell: usize, r: Range)
    requires { (4 * cell + 4 ≤ length cells.old) × (r.from < 65536) × (r.to < 65536) × (number_of r.bare < 65536) }
    ensures { cells.new ≡ with_range cells.old cell r }
{
    let at = NUMBERS * cell;
    cells[at] = r.from as u16;
    cells[at + 1] = r.to as u16;
    cells[at + 2] = r.bare.map_or(0, |m| m + 1) as u16;
}

// A cell covers another: it has every foot of it.
pub fn note_cover(cells: &mut [u16], coverer: usize, cell: usize)
    requires { (coverer < 65535) × (4 * cell + 4 ≤ length cells.old) }
    ensures { cells.new ≡ with_cover cells.old cell (coverer + 1) }
{
    cells[NUMBERS * cell + 3] = (coverer + 1) as u16;
}

// The cell that is noted as another's cover.
fn cover_of(cells: &[u16], cell: usize) -> Option<usize>
    requires { 4 * cell + 4 ≤ length cells.now }
    ensures { result ≡ numbered_by (cover_in cells.now cell) }
{
    usize::from(cells[NUMBERS * cell + 3]).checked_sub(1)
}

// Does a cell cover another, by itself or by a cell that it covers? Where it is by a third, that is noted anew, so that the next look is a
// short one.
pub fn is_covered(cells: &mut [u16], coverer: usize, cell: usize) -> bool
    requires { (coverer < 65535) × (4 * cell + 4 ≤ length cells.old) × (4 * cover_in cells.old cell ≤ length cells.old) }
    ensures { (result ≡ covered_in cells.old coverer cell) × (cells.new ≡ noted_anew cells.old coverer cell) }
{
    let Some(last) = cover_of(cells, cell) else {
        return false;
    };
    if last == coverer {
        return true;
    }
    let by_another = cover_of(cells, last) == Some(coverer);
    if by_another {
        note_cover(cells, coverer, cell);
    }
    by_another
}
