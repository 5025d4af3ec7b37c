// A line, accepted or refused: its bytes, its words and their numbers on the card (document 01, "Line and rewriting", document 02, Paper
// 2, and the shift leader's refusals 22, 21, 23 and 24). It is cut into words, each is looked up, and the verdict is given at its end.
#![tactic(auto)]

mod cut;
mod lookup;
mod slots;
mod verdict;

ghost use Rattle.line.specs.Accepted.{Accepts};

use card::Card;
use places::{MOST_WORDS, Words};
use refusals::Refusal;
use slots::{SLOTS, Slot};

// A line under an accepted card, in one pass. 22 comes before the line's other refusals, so it is answered at the first byte that does
// not fit; the others wait for the end. Past the most words only their count goes on.
pub fn accept_line(card: Card, line: &[u8]) -> Result<Words, Refusal>
    ensures { Accepts card.entry.bytes.now line.now result }
{
    let mut slots = [Slot { from: 0, to: 0 }; SLOTS];
    slots::range_all(card, &mut slots);
    let mut places = [0u32; MOST_WORDS];
    let mut count = 0;
    let mut at = cut::word_start(line, 0);
    // A cursor and no iterator of words: the byte that stops a word decides 22, so an iterator would have to hand it out beside each word.
    while at < line.len() {
        let end = cut::word_end(line, at);
        if end < line.len() && line[end] != cut::SPACE {
            return Err(Refusal::StrayByte);
        }
        if count < MOST_WORDS {
            places[count] = lookup::look_up(card, &slots, &line[at..end]);
        }
        count += 1;
        at = cut::word_start(line, end);
    }
    verdict::verdict(count, &places)
}

// The card's refusals, then the line's in their order, each over the whole line.
pub fn accept(card: &[u8], line: &[u8]) -> Result<Words, Refusal>
    ensures { Accepts card.now line.now result }
{
    accept_line(Card::check(card)?, line)
}
