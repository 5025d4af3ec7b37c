// The calls for C (document 01, "Check, pairs, name", and document 02): numbers and byte slices in, each answer packed in one u64.
#![tactic(auto)]

ghost use Rattle.std.specs.Prelude.{◌≡◌, ◌<◌};
ghost use Rattle.layout.specs.Card.{card_number};
ghost use Rattle.layout.specs.Answers.{check_number, name_answer, name_packed};
ghost use Rattle.layout.specs.Answers as answers;
ghost use Rattle.sheet.specs.Sheet.{pack_sheet};
ghost use Rattle.lig.specs.Exports.{ReadPacked, PairsPacked, SheetPacked};

use refusals::Refusal;

// 16 bits each from the low end. C reads numbers, so what is a result or an option inside is one number here.
fn pack(a: u64, b: usize, c: usize, d: usize) -> u64
    requires { (a < 65536) × (b < 65536) × (c < 65536) × (d < 65536) }
    ensures { result ≡ answers.pack a b c d }
{
    // By `as`, here and below: there is no `From<usize> for u64`.
    let low = a + (b as u64) * 65536;
    let high = (c as u64) + (d as u64) * 65536;
    low + high * 4294967296
}

// 16 bits, 8 bits and 20 bits from the low end, for C as well.
fn pack_sheet(number: u64, line: u8, records: usize) -> u64
    requires { (number < 65536) × (records < 1048576) }
    ensures { result ≡ pack_sheet number line records }
{
    let low = number + u64::from(line) * 65536;
    // By `as` for the same reason.
    low + (records as u64) * 16777216
}

#[unsafe(no_mangle)]
pub extern "C" fn lig_card_check(card: &[u8]) -> u64
    ensures { result ≡ card_number card.now }
{
    refusals::number(&card::check(card))
}

#[unsafe(no_mangle)]
pub extern "C" fn lig_read(card: &[u8], line: &[u8], chart: &mut [u8], plan: &mut [u8]) -> u64
    ensures { ReadPacked card.now line.now
        chart.old plan.old chart.new plan.new result }
{
    let reading = match reader::read::read(card, line, chart, plan) {
        Ok(reading) => reading,
        Err(refusal) => return u64::from(refusal),
    };
    // No reading is 25 here, in a sheet and in `lines`: a number with counts, a refusal, a text, and so in three words each time.
    match reading.steps {
        Some(steps) => pack(0, reading.words, reading.items, steps),
        None => pack(
            u64::from(Refusal::NoReading),
            reading.words,
            reading.items,
            0,
        ),
    }
}

#[unsafe(no_mangle)]
pub extern "C" fn lig_check(card: &[u8], line: &[u8], plan: &[u8]) -> u64
    ensures { result ≡ check_number card.now line.now plan.now }
{
    refusals::number(&check_pairs::check(card, line, plan))
}

#[unsafe(no_mangle)]
pub extern "C" fn lig_pairs(card: &[u8], line: &[u8], plan: &[u8], room: &mut [u8]) -> u64
    ensures { PairsPacked card.now line.now plan.now room.old room.new result }
{
    match check_pairs::pairs(card, line, plan, room) {
        Ok(count) => pack(0, count, 0, 0),
        Err(refusal) => u64::from(refusal),
    }
}

// The spelling's place in the card and its length, both 0 on a refusal.
#[unsafe(no_mangle)]
pub extern "C" fn lig_name(card: &[u8], word: usize) -> u64
    ensures { result ≡ name_packed (name_answer card.now word) }
{
    match card::find_name(card, word) {
        Ok(spelling) => pack(0, spelling.offset, spelling.size, 0),
        Err(refusal) => u64::from(refusal),
    }
}

#[unsafe(no_mangle)]
pub extern "C" fn lig_sheet(card: &[u8], sheet: &[u8], chart: &mut [u8], output: &mut [u8]) -> u64
    ensures { SheetPacked card.now sheet.now
        chart.old output.old chart.new output.new result }
{
    match sheet::read_sheet(card, sheet, chart, output) {
        Ok(records) => pack_sheet(0, 0, records),
        Err(refused) => pack_sheet(u64::from(refused.refusal), refused.line, 0),
    }
}
