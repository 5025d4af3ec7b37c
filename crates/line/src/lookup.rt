// Looking a word up on the card: one spelling may be several words.
ghost use Rattle.std.specs.Prelude.{◌≡◌, ◌≤◌, ◌<◌, length, IfSome};
ghost use Rattle.layout.specs.Card.{word_count};
ghost use Rattle.line.specs.Slots.{Ranged};
ghost use Rattle.line.specs.Lookup.{entry_or, NextEqual, word_set};

use crate::slots::{SLOTS, Slot, slot_of};
use card::Card;

// The position of the next entry, from one on and up to another, that equals the word byte by byte. An entry of another length is
// passed over at once; `next` steps on before the bytes are compared, so that a mismatch only has to go on. Document 01 asks for this form:
// a loop over the bytes left by a label, and the position yielded by a break.
fn next_equal(card: Card, word: &[u8], from: usize, to: usize) -> Option<usize>
    requires { (from ≤ to) × (to ≤ word_count card.bytes.now) }
    ensures equal { NextEqual card.entry.bytes.now word.now from to (entry_or to result) }
    ensures before { IfSome result (λ at. at < to) }
{
    let mut next = from;
    let at = 'entry: loop {
        let here = next;
        next += 1;
        if to < next {
            break None;
        }
        let entry = card.entry_at(here);
        if usize::from(card.bytes[entry]) != word.len() {
            continue 'entry;
        }
        for i in 0..word.len() {
            if card.bytes[entry + 1 + i] != word[i] {
                continue 'entry;
            }
        }
        break Some(here);
    };
    at
}

// The set of all words that are spelled so, among the entries in the word's slot: each equal entry is noted, and the search goes on from
// there.
pub fn look_up(card: Card, slots: &[Slot; SLOTS], word: &[u8]) -> u32
    requires { Ranged card.bytes.now (word_count card.bytes.now) slots.now × (0 < length word.now) }
    ensures { result ≡ word_set card.entry.bytes.now word.now }
{
    let slot = slots[slot_of(word[0], word[word.len() - 1])];
    let to = usize::from(slot.to);
    let mut from = usize::from(slot.from);
    let mut set = 0u32;
    while let Some(at) = next_equal(card, word, from, to) {
        set = bits::with(set, at);
        from = at + 1;
    }
    set
}
