// The program "lines" (document 01, "The tomato card"): loads `card.lig`, takes the lines of standard input, and prints what Read and
// Pairs answer for each.
#![tactic(auto)]

mod answer;
mod input;
mod output;

ghost use Rattle.std.specs.Prelude.{◌≡◌, ◌≤◌, length, take};
ghost use Rattle.std.specs.Io.KnownBytes.{Consumes, Appends};
ghost use Rattle.split.specs.Lines.{lines_of};
ghost use Rattle.lines.specs.Answer.{Texts, text_room, AnswersAll, most_card, most_input, Prints, Handed};

use std::io::{Read, Write};
use std::rt::Files;

// How many bytes of the card and of the input were taken in, how many of text were handed out, and how many of these the writer took: all of
// them, unless a write failed.
#[derive(Drop)]
pub struct Printed {
    pub card: usize,
    pub input: usize,
    pub text: usize,
    pub written: usize,
}

// The text of the lines, and how much of it was written.
#[derive(Drop)]
pub struct Answered {
    pub text: usize,
    pub written: usize,
}

// The one place that writes. No contract can say what a call of the operating system does, so this one says what may be given to it:
// the text of every line of the input, in order, under the card. Of any other writer it says which bytes it has then.
fn hand_out<W: Write>(card: &[u8], input: &[u8], text: &[u8], to: &mut W) -> usize
    requires { Texts card.now (lines_of input.now) text.now }
    ensures counts { result ≤ length text.now }
    ensures bytes { Appends (W.contents to.old) (W.contents to.new) (take result text.now) }
{
    output::write_full(to, text)
}

// The text of every line of the input, under the card, is made and handed out: how many bytes it has.
fn print_answers<W: Write>(card: &[u8], input: &[u8], text: &mut [u8], to: &mut W) -> Answered
    requires { text_room (length input.now) ≤ length text.old }
    ensures texts { AnswersAll card.now input.now text.new result.text }
    ensures handed { Handed (W.contents to.old) (W.contents to.new) (take result.text text.new) result.written }
{
    let size = answer::put_answers(card, input, text);
    let written = hand_out(card, input, &text[..size], to);
    Answered {
        text: size,
        written,
    }
}

// Takes in the card and the input, each as far as its room goes, and answers every line.
fn print_lines<F: Files, R: Read, W: Write>(
    rt: &F,
    from: &mut R,
    to: &mut W,
    card: &mut [u8],
    input: &mut [u8],
    text: &mut [u8],
) -> Printed
    requires { text_room (length input.old) ≤ length text.old }
    ensures prints { Prints card.new input.new text.new result }
    ensures taken { Consumes (R.remaining from.old) (R.remaining from.new) (take result.input input.new) }
    ensures handed { Handed (W.contents to.old) (W.contents to.new) (take result.text text.new) result.written }
{
    let card_size = input::load_card(rt, card);
    let input_size = input::read_full(from, input);
    let answered = print_answers(&card[..card_size], &input[..input_size], text, to);
    Printed {
        card: card_size,
        input: input_size,
        text: answered.text,
        written: answered.written,
    }
}

// The same in rooms of the program's own lengths. They are said by the rooms' types, so that no proof has to count two million zeros.
fn print_within<F: Files, R: Read, W: Write>(
    rt: &F,
    from: &mut R,
    to: &mut W,
    card: &mut [u8; input::MOST_CARD],
    input: &mut [u8; input::MOST_INPUT],
    text: &mut [u8; answer::TEXT_ROOM],
) -> Printed
    ensures prints { Prints card.new input.new text.new result }
    ensures lengths { (length card.new ≡ most_card) × (length input.new ≡ most_input) }
    ensures taken { Consumes (R.remaining from.old) (R.remaining from.new) (take result.input input.new) }
    ensures handed { Handed (W.contents to.old) (W.contents to.new) (take result.text text.new) result.written }
{
    print_lines(rt, from, to, card, input, text)
}

fn main(rt: HostRuntime) {
    let mut card = [0u8; input::MOST_CARD];
    let mut input = [0u8; input::MOST_INPUT];
    let mut text = [0u8; answer::TEXT_ROOM];
    let mut from = rt.stdin();
    let mut to = rt.stdout();
    print_within(&rt, &mut from, &mut to, &mut card, &mut input, &mut text);
}
