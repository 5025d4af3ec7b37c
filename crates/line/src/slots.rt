// The entries of a card by the letters at their ends, so that a word is compared with few of them.
ghost use Rattle.std.specs.Prelude.{◌≡◌, ◌<◌, replicate};
ghost use Rattle.layout.specs.Card.{word_count};
ghost use Rattle.line.specs.Slots.{slot_of, no_slot, NextInSlot, Ranged};

use card::Card;

// Five bits tell most words apart, numbered ones such as row1 and row2 too.
pub const SLOTS: usize = 32;

// From which entry on and up to which entry those of a slot stand, as far as they are met. Both are 0 where none has been: an empty
// range, since an option would make the table half as long again.
#[derive(Clone, Copy)]
pub struct Slot {
    pub from: u8,
    pub to: u8,
}

impl Slot {
    // With entry v, which comes after those that it has.
    fn with(self, v: u8) -> Slot
        requires { v < 255 }
        ensures { NextInSlot self v result }
    {
        Slot {
            from: if self.to == 0 { v } else { self.from },
            to: v + 1,
        }
    }
}

// The slot of a word, by its first and its last letter. The first counts twice, so that words of one letter or digit are told apart.
pub fn slot_of(first: u8, last: u8) -> usize
    ensures { (result ≡ slot_of first last) × (result < 32) }
{
    (2 * usize::from(first) + usize::from(last)) & 31
}

// The entries of every slot. The table is lent, and its slots are empty at the start.
pub fn range_all(card: Card, slots: &mut [Slot; SLOTS])
    requires { slots.old ≡ replicate 32 no_slot }
    ensures { Ranged card.entry.bytes.now (word_count card.entry.bytes.now) slots.new }
{
    for v in 0..card.words() {
        let entry = card.entry_at(v);
        let size = usize::from(card.bytes[entry]);
        let h = slot_of(card.bytes[entry + 1], card.bytes[entry + size]);
        // A card has at most 32 words. There is no `From`, and `try_from` would test what is proved.
        slots[h] = slots[h].with(v as u8);
    }
}
