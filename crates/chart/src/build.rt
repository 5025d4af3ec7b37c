// Cell by cell, span by span, end by end: the spans of an end from the shortest.
ghost use Rattle.std.specs.Prelude.{◌≡◌, [], ℕ, ◌+◌, ◌-◌, ◌≤◌, ◌<◌};
ghost use Rattle.std.proofs.Math.Option.{some};
ghost use Rattle.layout.specs.Card.{max_nonterminals, grammar_of};
ghost use Rattle.places.specs.Places.{word_test};
ghost use Rattle.chart_model.specs.Build.{places as positions, close_span, close_end, build};
ghost use Rattle.records.specs.Room.{chart_in};
ghost use Rattle.sets.specs.Places.{OnlyMeeting, OnlySpans};
ghost use Rattle.sets.specs.Spans.{Rows};
ghost use Rattle.chart.specs.Fill.{Filled, Ready, FilledTo, OpenedAt, Fillable, filled_cell, SpanSet, Closed};

use crate::input::Input;
use places::Words;
use records::record::OpenCell;
use records::span::Span;

// The line's words, the card's nonterminals, and the items that the room holds. Tried without the words, which the input counts too: behind its
// reference they are read anew for every span, and the builder took an eighth more instructions. That the nonterminals are few is asked where it
// is needed and no ghost field: the definitions by which one would say it name this struct.
#[derive(Clone, Copy)]
pub struct Sizes {
    pub words: usize,
    pub symbols: usize,
    pub room: usize,
}

impl Sizes {
    // The cell of nonterminal a over a span, begun with so many records.
    fn open_cell(self, a: usize, span: Span, base: usize) -> OpenCell
        requires { (self.symbols ≤ max_nonterminals) × (a < self.symbols) }
        ensures { OpenedAt self a span base result }
    {
        // A record has a byte for each of the last three, there is no `From`, and that they fit is proved.
        OpenCell {
            words: self.words,
            symbols: self.symbols,
            room: self.room,
            base,
            number: span.cell(self.symbols, a),
            left: a as u8,
            from: span.from as u8,
            to: span.to as u8,
        }
    }
}

// One cell: its records, and then its place in the tables. The set has every production that can add to it.
// The room and the tables are no struct here and below, for the reason at `records::add`.
fn fill_cell(
    chart: &mut [u8],
    marks: &mut [u8],
    cells: &mut [u16],
    sets: &mut [u64],
    cell: OpenCell,
    input: Input,
    set: u64,
) -> Option<usize>
    requires { Fillable input.card.bytes.now input.words.now.places cell chart.old marks.old cells.old sets.old set }
    ensures { Filled (grammar_of input.entry.card.bytes.now) cell.words cell.symbols cell.room
        (filled_cell input.entry.card.bytes.now input.entry.words.now.places cell chart.old)
        chart.old chart.new marks.new cells.new sets.new result
        × OnlySpans sets.old sets.new }
{
    let total = crate::cell::fill_items(chart, marks, cells, sets, cell, input, set)?;
    if total != cell.base {
        let range = crate::cell::finish(chart, marks, cell, total);
        records::cells::put_range(cells, cell.number, range);
        sets::note(sets, cell, range.bare);
    }
    Some(total)
}

// What can add to a span: the word productions for the words of its place, or those with both elements at some split.
fn span_set(sets: &mut [u64], span: Span, words: &Words) -> u64
    requires { Rows span.words sets.old }
    ensures { SpanSet words.now.places span.from span.to sets.new result × OnlyMeeting sets.old sets.new }
{
    if span.to - span.from == 1 {
        sets::meet_none(sets);
        return sets::of_words(sets, words.places[span.from]);
    }
    sets::meet(sets, span)
}

// One span, nonterminal by nonterminal. One that has no production in the span's set adds nothing.
fn close_span(
    chart: &mut [u8],
    marks: &mut [u8],
    cells: &mut [u16],
    sets: &mut [u64],
    sizes: Sizes,
    span: Span,
    input: Input,
    count: usize,
) -> Option<usize>
    requires { Ready input.card.bytes.now sizes chart.old marks.old cells.old sets.old count × (span.words ≡ sizes.words)
        × ((A : ℕ) → positions (chart_in chart.old count) A span.from span.to ≡ []) }
    ensures { FilledTo input.entry.card.bytes.now sizes
        (close_span sizes.room (grammar_of input.entry.card.bytes.now) (word_test input.entry.words.now.places) sizes.symbols
        (span.to - span.from) span.from (some (chart_in chart.old count)))
        chart.old chart.new marks.new cells.new sets.new result }
{
    let set = span_set(sets, span, input.words);
    if set == 0 {
        return Some(count);
    }
    let mut total = count;
    for a in 0..sizes.symbols {
        let productions = sets[a] & set;
        if productions == 0 {
            continue;
        }
        let cell = sizes.open_cell(a, span, total);
        total = fill_cell(chart, marks, cells, sets, cell, input, productions)?;
    }
    Some(total)
}

// The spans that end at e + 1, from the shortest: each rests on those before it, and on earlier ends.
fn close_end(
    chart: &mut [u8],
    marks: &mut [u8],
    cells: &mut [u16],
    sets: &mut [u64],
    sizes: Sizes,
    e: usize,
    input: Input,
    count: usize,
) -> Option<usize>
    requires { Ready input.card.bytes.now sizes chart.old marks.old cells.old sets.old count × (e < sizes.words)
        × ((A i : ℕ) → positions (chart_in chart.old count) A i (e + 1) ≡ []) }
    ensures { FilledTo input.entry.card.bytes.now sizes
        (close_end sizes.room (grammar_of input.entry.card.bytes.now) (word_test input.entry.words.now.places) sizes.symbols e
        (some (chart_in chart.old count)))
        chart.old chart.new marks.new cells.new sets.new result }
{
    let mut total = count;
    for i in (0..=e).rev() {
        let span = Span {
            words: sizes.words,
            from: i,
            to: e + 1,
        };
        total = close_span(chart, marks, cells, sets, sizes, span, input, total)?;
    }
    Some(total)
}

// All ends, from the left. The tables are lent, and are 0 at the start but for the sets of the card's productions.
pub fn close_all(
    chart: &mut [u8],
    marks: &mut [u8],
    cells: &mut [u16],
    sets: &mut [u64],
    sizes: Sizes,
    input: Input,
) -> Option<usize>
    requires { Ready input.card.bytes.now sizes chart.old marks.old cells.old sets.old 0 }
    ensures { Closed sizes.words sizes.symbols sizes.room
        (build sizes.room (grammar_of input.entry.card.bytes.now) (word_test input.entry.words.now.places) sizes.symbols sizes.words)
        chart.old chart.new result }
{
    let mut total = 0;
    for e in 0..sizes.words {
        total = close_end(chart, marks, cells, sets, sizes, e, input, total)?;
    }
    Some(total)
}
