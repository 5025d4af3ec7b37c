// One line: accepted or refused, its chart, and its plan.
ghost use Rattle.reader.specs.Read.{Reads};
ghost use Rattle.reader.specs.Ended.{Charted, PlanOf};

use card::Card;
use chart::input::Input;
use places::MOST_WORDS;
use refusals::Refusal;

// Room for the plan of any line: four bytes for each of 2n - 1 steps.
pub const PLAN_ROOM: usize = 4 * (2 * MOST_WORDS - 1);

// What the chart of an accepted line says: how many words and items there are, and how many steps its plan has, if there is one.
#[derive(Clone, Copy)]
pub struct Reading {
    pub words: usize,
    pub items: usize,
    pub steps: Option<usize>,
}

// The chart of n words is in its room, with so many items: the plan of the item of the start over them, if it is there.
fn plan_of(card: Card, n: usize, items: usize, chart: &[u8], plan: &mut [u8]) -> Reading
    requires { Charted card.bytes.now chart.now n items plan.old }
    ensures { PlanOf card.entry.bytes.now chart.now n items plan.old plan.new result }
{
    let Some(m) = unfold::find_start(chart, items, n) else {
        return Reading {
            words: n,
            items,
            steps: None,
        };
    };
    unfold::unfold(card, chart, m, plan);
    Reading {
        words: n,
        items,
        steps: Some(2 * n - 1),
    }
}

// One line under an accepted card.
pub fn read_line(
    card: Card,
    line: &[u8],
    chart: &mut [u8],
    plan: &mut [u8],
) -> Result<Reading, Refusal>
    ensures { Reads card.entry.bytes.now line.now
        chart.old plan.old chart.new plan.new result }
{
    let words = line::accept_line(card, line)?;
    let n = words.count;
    if plan.len() < 4 * (2 * n - 1) {
        return Err(Refusal::PlanRoom);
    }
    let input = Input {
        card,
        words: &words,
    };
    let items = chart::build_chart(input, chart).ok_or(Refusal::ChartRoom)?;
    Ok(plan_of(card, n, items, chart, plan))
}

// The card's refusals, and then the line.
pub fn read(card: &[u8], line: &[u8], chart: &mut [u8], plan: &mut [u8]) -> Result<Reading, Refusal>
    ensures { Reads card.now line.now
        chart.old plan.old chart.new plan.new result }
{
    read_line(Card::check(card)?, line, chart, plan)
}
