// The tables beside the room, on the stack. Their sizes go by the words and by whether the card has few nonterminals, so that clearing
// them costs little where little is needed: those of `_W` are for lines of up to W words, those of `_W_FEW` for cards of few nonterminals.
ghost use Rattle.std.specs.Prelude.{◌+◌, ◌≤◌, ◌<◌};
ghost use Rattle.layout.specs.Card.{nonterminal_count};
ghost use Rattle.chart.specs.Built.{LongEnough, TablesLent, ClosedIn};

use crate::build::Sizes;
use crate::input::Input;
use card::Card;
use places::MOST_WORDS;
use sets::SPANS;

// Few nonterminals.
const FEW: usize = 6;

// The spans of 4 words, of 6, and so on. The formula is written out each time, since a constant may not call a `const fn`.
const SPANS_4: usize = (4 * 5) >> 1;

const SPANS_6: usize = (6 * 7) >> 1;

const SPANS_8: usize = (8 * 9) >> 1;

const SPANS_12: usize = (12 * 13) >> 1;

const SPANS_16: usize = (16 * 17) >> 1;

const SPANS_24: usize = (MOST_WORDS * (MOST_WORDS + 1)) >> 1;

// The tables' lengths, for cards of few nonterminals and for all cards: of marks, of cells, and of sets.
const MARKS_4_FEW: usize = SPANS_4 * FEW + 1;

const CELLS_4_FEW: usize = 4 * SPANS_4 * FEW;

const SETS_4: usize = SPANS + 2 * SPANS_4 + 2 * (4 + 1);

const MARKS_6: usize = SPANS_6 * Card::MAX_NONTERMINALS + 1;

const CELLS_6: usize = 4 * SPANS_6 * Card::MAX_NONTERMINALS;

const SETS_6: usize = SPANS + 2 * SPANS_6 + 2 * (6 + 1);

const MARKS_8_FEW: usize = SPANS_8 * FEW + 1;

const CELLS_8_FEW: usize = 4 * SPANS_8 * FEW;

const SETS_8: usize = SPANS + 2 * SPANS_8 + 2 * (8 + 1);

const MARKS_12_FEW: usize = SPANS_12 * FEW + 1;

const CELLS_12_FEW: usize = 4 * SPANS_12 * FEW;

const MARKS_12: usize = SPANS_12 * Card::MAX_NONTERMINALS + 1;

const CELLS_12: usize = 4 * SPANS_12 * Card::MAX_NONTERMINALS;

const SETS_12: usize = SPANS + 2 * SPANS_12 + 2 * (12 + 1);

const MARKS_16_FEW: usize = SPANS_16 * FEW + 1;

const CELLS_16_FEW: usize = 4 * SPANS_16 * FEW;

const SETS_16: usize = SPANS + 2 * SPANS_16 + 2 * (16 + 1);

const MARKS_24_FEW: usize = SPANS_24 * FEW + 1;

const CELLS_24_FEW: usize = 4 * SPANS_24 * FEW;

const MARKS_24: usize = SPANS_24 * Card::MAX_NONTERMINALS + 1;

const CELLS_24: usize = 4 * SPANS_24 * Card::MAX_NONTERMINALS;

const SETS_24: usize = SPANS + 2 * SPANS_24 + 2 * (MOST_WORDS + 1);

// With tables that are all 0 and long enough. The input stands first, as in what calls this: in the order of `close_all` the code has more to do.
fn build_with(
    input: Input,
    chart: &mut [u8],
    marks: &mut [u8],
    cells: &mut [u16],
    sets: &mut [u64],
) -> Option<usize>
    requires { TablesLent input.words.now.count (nonterminal_count input.card.bytes.now) marks.old cells.old sets.old }
    ensures { ClosedIn input.entry.card.bytes.now input.entry.words.now.places input.entry.words.now.count
        chart.old chart.new result }
{
    let sizes = Sizes {
        words: input.words.count,
        symbols: input.card.nonterminals(),
        room: records::room::capacity(chart.len()),
    };
    sets::classify(input.card, sets);
    crate::build::close_all(chart, marks, cells, sets, sizes, input)
}

// With tables of so many marks, cells and sets, few enough for an array each, in the frame of what calls this.
#[inline(always)]
fn build_sized<const MARKS: usize, const CELLS: usize, const SETS: usize>(
    input: Input,
    chart: &mut [u8],
) -> Option<usize>
    requires { (MARKS + CELLS + SETS < 65536)
        × LongEnough input.words.now.count (nonterminal_count input.card.bytes.now) MARKS CELLS SETS }
    ensures { ClosedIn input.entry.card.bytes.now input.entry.words.now.places input.entry.words.now.count
        chart.old chart.new result }
{
    let mut marks = [0u8; MARKS];
    let mut cells = [0u16; CELLS];
    let mut sets = [0u64; SETS];
    build_with(input, chart, &mut marks, &mut cells, &mut sets)
}

// The tables of long lines, each in a frame of its own. Three frames in all, of which a line takes one: so none lies on another's.
#[inline(never)]
fn build_long<const MARKS: usize, const CELLS: usize, const SETS: usize>(
    input: Input,
    chart: &mut [u8],
) -> Option<usize>
    requires { (MARKS + CELLS + SETS < 65536)
        × LongEnough input.words.now.count (nonterminal_count input.card.bytes.now) MARKS CELLS SETS }
    ensures { ClosedIn input.entry.card.bytes.now input.entry.words.now.places input.entry.words.now.count
        chart.old chart.new result }
{
    build_sized::<MARKS, CELLS, SETS>(input, chart)
}

// The first tables that are large enough for a line that is not long, in one frame, one size in the place of another.
#[inline(never)]
fn build_short(input: Input, chart: &mut [u8]) -> Option<usize>
    requires { (input.words.now.count ≤ 16) × (12 < input.words.now.count → nonterminal_count input.card.bytes.now ≤ 6) }
    ensures { ClosedIn input.entry.card.bytes.now input.entry.words.now.places input.entry.words.now.count
        chart.old chart.new result }
{
    let n = input.words.count;
    let few = input.card.nonterminals() <= FEW;
    if few && n <= 4 {
        build_sized::<MARKS_4_FEW, CELLS_4_FEW, SETS_4>(input, chart)
    } else if few && n <= 8 {
        build_sized::<MARKS_8_FEW, CELLS_8_FEW, SETS_8>(input, chart)
    } else if n <= 6 {
        build_sized::<MARKS_6, CELLS_6, SETS_6>(input, chart)
    } else if few && n <= 12 {
        build_sized::<MARKS_12_FEW, CELLS_12_FEW, SETS_12>(input, chart)
    } else if n <= 12 {
        build_sized::<MARKS_12, CELLS_12, SETS_12>(input, chart)
    } else {
        build_sized::<MARKS_16_FEW, CELLS_16_FEW, SETS_16>(input, chart)
    }
}

// With the first tables that are large enough.
pub fn build_in(input: Input, chart: &mut [u8]) -> Option<usize>
    ensures { ClosedIn input.entry.card.bytes.now input.entry.words.now.places input.entry.words.now.count
        chart.old chart.new result }
{
    let n = input.words.count;
    let few = input.card.nonterminals() <= FEW;
    if few && 16 < n {
        build_long::<MARKS_24_FEW, CELLS_24_FEW, SETS_24>(input, chart)
    } else if !few && 12 < n {
        build_long::<MARKS_24, CELLS_24, SETS_24>(input, chart)
    } else {
        build_short(input, chart)
    }
}
