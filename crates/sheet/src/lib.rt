// A whole sheet (document 02, Paper 1): every line is read, and only where all are read are the records of their pairs written.
#![tactic(auto)]

mod sheet_records;

ghost use Rattle.std.specs.Prelude.{◌≡◌, ◌≤◌, length};
ghost use Rattle.split.specs.Lines.{lines_of};
ghost use Rattle.refusals.specs.Number.{number_told};
ghost use Rattle.sheet.specs.Sheet.{most_lines};
ghost use Rattle.sheet.specs.Promise.{Sheet};
ghost use Rattle.sheet.specs.Answered.{refused, answer_number, answer_line, answer_count};
ghost use Rattle.sheet.specs.Reading.{RoomForLine, Adds, Ends, HandsOut};

use card::Card;
use check_pairs::plan::Passed;
use reader::read::PLAN_ROOM;
use refusals::Refusal;
use sheet_records::Records;

// How many lines a sheet may have.
const MOST_LINES: usize = 64;

// Why a sheet is not accepted, and the line that this is about.
#[derive(Clone, Copy)]
pub struct Refused {
    pub refusal: Refusal,
    pub line: u8,
}

// What is about no line has line 0: refusals before the first, and 33 after the last.
impl From<Refusal> for Refused {
    ghost from_gives = { λ refusal r. r ≡ refused refusal 0 };

    fn from(refusal: Refusal) -> Refused {
        Refused { refusal, line: 0 }
    }
}

// One line: it is read, and the records of its plan are put behind those of the lines before it.
fn add_line(
    card: Card,
    line: &[u8],
    place: u8,
    chart: &mut [u8],
    records: &mut Records,
) -> Result<(), Refusal>
    requires { RoomForLine records.old }
    ensures { Adds card.entry.bytes.now line.now place chart.old chart.new
        records.old records.new (number_told result) }
{
    let mut plan = [0u8; PLAN_ROOM];
    let reading = reader::read::read_line(card, line, chart, &mut plan)?;
    let steps = reading.steps.ok_or(Refusal::NoReading)?;
    let passed = Passed {
        card,
        plan: &plan[..4 * steps],
    };
    records.add(passed, place);
    Ok(())
}

// The lines in their order, up to the first that is not read.
fn read_lines(
    card: Card,
    sheet: &[u8],
    chart: &mut [u8],
    records: &mut Records,
) -> Result<(), Refused>
    requires { (length (lines_of sheet.now) ≤ most_lines) × (records.old.count ≡ 0) }
    ensures { Ends card.entry.bytes.now sheet.now chart.old chart.new records.new result }
{
    // Places are bytes, as a record has them, and there are more of these than lines.
    for (place, line) in (0..u8::MAX).zip(split::lines(sheet)) {
        add_line(card, line, place, chart, records).map_err(|refusal| Refused {
            refusal,
            line: place,
        })?;
    }
    Ok(())
}

// All lines are read, and here are the bytes of their records: 33 is decided before a byte of the output is written.
fn hand_out(records: &[u8], count: usize, output: &mut [u8]) -> Result<usize, Refused>
    ensures { HandsOut records.now count output.old output.new result }
{
    if output.len() < records.len() {
        return Err(Refused::from(Refusal::OutputRoom));
    }
    output[..records.len()].copy_from_slice(records);
    Ok(count)
}

// The card's refusals, 41, the lines, and then 33: how many records there are. The card is checked once.
pub fn read_sheet(
    card: &[u8],
    sheet: &[u8],
    chart: &mut [u8],
    output: &mut [u8],
) -> Result<usize, Refused>
    ensures { Sheet card.now sheet.now chart.old output.old
        chart.new output.new (answer_number result) (answer_line result) (answer_count result) }
{
    let card = Card::check(card)?;
    if !split::at_most(sheet, MOST_LINES) {
        return Err(Refused::from(Refusal::ManyLines));
    }
    let mut records = Records::new();
    read_lines(card, sheet, chart, &mut records)?;
    hand_out(records.bytes(), records.count, output)
}
