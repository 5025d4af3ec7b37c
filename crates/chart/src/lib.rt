// The chart builder (document 01, "The chart"): the derivable items of an accepted line, each once, in a lent room.
#![tactic(auto)]

mod build;
mod cell;
pub mod input;
mod sized;

ghost use Rattle.places.specs.Places.{word_test};
ghost use Rattle.chart.specs.Built.{BuiltRoom};

use input::Input;

// The chart of a line's words under an accepted card, and the number of its items; if they outnumber what the room holds, there is
// none, and the room is cleared. What the room held before does not matter. The numbers that the records have while the chart is built are
// cleared at its end.
pub fn build_chart(input: Input, chart: &mut [u8]) -> Option<usize>
    ensures { BuiltRoom input.entry.card.bytes.now (word_test input.entry.words.now.places) input.entry.words.now.count
        result chart.old chart.new }
{
    let Some(count) = sized::build_in(input, chart) else {
        records::room::clear(chart);
        return None;
    };
    records::room::clear_numbers(chart, count);
    Some(count)
}
