// One cell: the items of A over i to j.
// Room, marks and cells are a parameter each here, for the reason at `records::add`.
// Narrowed by `as`: a production. A record has a byte for it, there is no `From`, and that it fits is proved.
ghost use Rattle.std.specs.Prelude.{◌≡◌, ◌+◌, ◌≤◌, ◌<◌};
ghost use Rattle.layout.specs.Card.{max_productions};
ghost use Rattle.card.specs.Productions.{rule_from};
ghost use Rattle.chart_model.specs.Build.{by_word};
ghost use Rattle.records.specs.Filling.{begun_with, WorksOn, AddedTo, Filling, AdvancedTo};
ghost use Rattle.chart.specs.Cell.{splits_add, rule_adds, cell_adds, CellGiven, Turn, SetFor, one_of, is_word_of, Finished};

use crate::input::Input;
use card::{Card, Production};
use records::cells::Range;
use records::record::{Foot, NOWHERE, OpenCell, Origin};

// Is the rule a word production of a nonterminal, for a word of a set?
fn is_word(rule: Production, a: u8, words: u32) -> bool
    ensures { result ≡ is_word_of a words (rule_from rule) }
{
    matches!(rule, Production::Word { left, word } if left == a && bits::has(words, word))
}

// What production p adds at a place with a set of words: a bare item, whose number comes after those of all feet with an index.
fn at_word(
    chart: &mut [u8],
    marks: &mut [u8],
    cell: OpenCell,
    p: usize,
    rule: Production,
    words: u32,
    count: usize,
) -> Option<usize>
    requires { WorksOn cell chart.old marks.old count × (cell.to ≡ cell.from + 1) × (p < max_productions) }
    ensures { AddedTo cell (by_word (one_of words) cell.left cell.from p (rule_from rule))
        chart.old marks.old count chart.new marks.new result }
{
    if !is_word(rule, cell.left, words) {
        return Some(count);
    }
    let foot = Foot {
        index: 0,
        symbol: 255,
        from: 0,
        to: 0,
    };
    let origin = Origin {
        production: p as u8,
        side: NOWHERE,
        dependent: NOWHERE,
        continuation: NOWHERE,
    };
    let number = cell.symbols * ((cell.words * (cell.words + 1)) >> 1) * Card::MAX_INDICES;
    records::add::add(chart, marks, cell, foot, number, origin, count)
}

// What production p adds at every split of the span, from the left. At a split that is left out one of its elements is missing, or a like
// production before it, which is in the set, has added the same items.
fn across_splits(
    chart: &mut [u8],
    marks: &mut [u8],
    cells: &mut [u16],
    sets: &[u64],
    cell: OpenCell,
    card: Card,
    set: u64,
    p: usize,
    count: usize,
) -> Option<usize>
    requires { Filling cell chart.old marks.old cells.old count × CellGiven card.bytes.now sets.now cell chart.old
        × Turn card.bytes.now cell chart.old count p }
    ensures { AdvancedTo cell (splits_add card.entry.bytes.now cell p (begun_with cell chart.old))
        chart.old marks.old cells.old count chart.new marks.new cells.new result }
{
    let rule = card.production(p);
    let like = sets::like::like_before(card, set, p);
    let splits = sets::splits_of(sets, p, like);
    let mut total = count;
    for k in bits::numbers(splits) {
        total = steps::step::by_production(chart, marks, cells, cell, k, p as u8, rule, total)?;
    }
    Some(total)
}

// What production p adds to the cell.
fn by_rule_over(
    chart: &mut [u8],
    marks: &mut [u8],
    cells: &mut [u16],
    sets: &[u64],
    cell: OpenCell,
    input: Input,
    set: u64,
    p: usize,
    count: usize,
) -> Option<usize>
    requires { Filling cell chart.old marks.old cells.old count × CellGiven input.card.bytes.now sets.now cell chart.old
        × Turn input.card.bytes.now cell chart.old count p }
    ensures { AdvancedTo cell (rule_adds input.entry.card.bytes.now input.entry.words.now.places cell p (begun_with cell chart.old))
        chart.old marks.old cells.old count chart.new marks.new cells.new result }
{
    let from = usize::from(cell.from);
    let to = usize::from(cell.to);
    if to - from == 1 {
        return at_word(
            chart,
            marks,
            cell,
            p,
            input.card.production(p),
            input.words.places[from],
            count,
        );
    }
    across_splits(chart, marks, cells, sets, cell, input.card, set, p, count)
}

// The candidates of the cell, production by production of a set that has all that can add to it.
pub fn fill_items(
    chart: &mut [u8],
    marks: &mut [u8],
    cells: &mut [u16],
    sets: &[u64],
    cell: OpenCell,
    input: Input,
    set: u64,
) -> Option<usize>
    requires { Filling cell chart.old marks.old cells.old cell.base × CellGiven input.card.bytes.now sets.now cell chart.old
        × SetFor input.card.bytes.now input.words.now.places cell chart.old set }
    ensures { AdvancedTo cell (cell_adds input.entry.card.bytes.now input.entry.words.now.places cell (begun_with cell chart.old))
        chart.old marks.old cells.old cell.base chart.new marks.new cells.new result }
{
    let mut total = cell.base;
    for p in bits::numbers(set) {
        total = by_rule_over(chart, marks, cells, sets, cell, input, set, p, total)?;
    }
    Some(total)
}

// The cell is filled: its marks are taken back, and where its records stand is known.
pub fn finish(chart: &[u8], marks: &mut [u8], cell: OpenCell, count: usize) -> Range
    requires { WorksOn cell chart.now marks.old count × (cell.base ≤ count) }
    ensures { Finished chart.now cell.base count marks.old marks.new result }
{
    let mut bare = None;
    for m in cell.base..count {
        let foot = records::record::foot_at(chart, m);
        if foot.index == 0 {
            bare = Some(m);
        }
        let number = records::record::number_at(chart, m);
        records::marks::unmark(marks, number);
    }
    Range {
        from: cell.base,
        to: count,
        bare,
    }
}
