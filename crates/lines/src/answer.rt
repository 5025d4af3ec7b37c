// The answers for lines: what Read and Pairs answer, as text in a buffer.
ghost use Rattle.std.specs.Prelude.{◌+◌, ◌≤◌, length};
ghost use Rattle.lines_text.specs.Text.{Appends};
ghost use Rattle.lines.specs.Answer.{plan_text, Answers, text_room, AnswersAll};

use crate::input::MOST_INPUT;
use lines_text::text;
use reader::read::PLAN_ROOM;
use refusals::Refusal;

// Room for 4,000 items.
const CHART_ROOM: usize = 64000;

// Room for as many pairs as a plan has steps.
const PAIR_ROOM: usize = 94;

// More than the text of one line takes, even if each number in it had 20 digits.
const MOST_TEXT: usize = 8192;

// A line's text takes at most so many bytes for each byte of the line, its line end among them.
const TEXT_RATE: usize = 32;

// A buffer of a fixed length, since printing must not run out of memory. Room for the text of every input that is taken in.
pub const TEXT_ROOM: usize = TEXT_RATE * (MOST_INPUT + 1) + MOST_TEXT;

// The steps of a plan, which is all of the bytes, and its pairs: at most 188 × 21 and 94 × 24 bytes of text. Pairs takes every plan that
// was read, in this room; where it would not, there are no pairs to print.
fn put_plan(card: &[u8], line: &[u8], plan: &[u8], out: &mut [u8], at: usize) -> usize
    requires { (at + 6204 ≤ length out.old) × (length plan.now ≤ 188) }
    ensures { Appends out.old at (plan_text card.now line.now plan.now) out.new result }
{
    let after = text::put_steps(out, at, plan);
    let mut pairs = [0u8; PAIR_ROOM];
    let count = check_pairs::pairs(card, line, plan, &mut pairs).unwrap_or(0);
    text::put_pairs(out, after, &pairs[..2 * count])
}

// The answer for one line. Where it has no reading, that is refused too.
fn put_answer(card: &[u8], line: &[u8], out: &mut [u8], at: usize) -> usize
    requires { at + 8192 ≤ length out.old }
    ensures { Answers card.now line.now out.old at out.new result }
{
    let mut chart = [0u8; CHART_ROOM];
    let mut plan = [0u8; PLAN_ROOM];
    let reading = match reader::read::read(card, line, &mut chart, &mut plan) {
        Ok(reading) => reading,
        Err(refusal) => return text::put_refused(out, at, u64::from(refusal)),
    };
    let Some(steps) = reading.steps else {
        return text::put_refused(out, at, u64::from(Refusal::NoReading));
    };
    // By `as`: there is no `From<usize> for u64`.
    let after = text::put_read(out, at, reading.words as u64, reading.items as u64);
    put_plan(card, line, &plan[..4 * steps], out, after)
}

// The answers for every line, one after the other: how many bytes of the buffer they take.
pub fn put_answers(card: &[u8], lines: &[u8], out: &mut [u8]) -> usize
    requires { text_room (length lines.now) ≤ length out.old }
    ensures { AnswersAll card.now lines.now out.new result }
{
    let mut size = 0;
    for line in split::lines(lines) {
        size = put_answer(card, line, out, size);
    }
    size
}
