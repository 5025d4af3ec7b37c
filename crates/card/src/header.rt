// What the first bytes of a card say of the others, and refusals 11 to 13: the mark, the counts, the offsets and the length.
ghost use Rattle.std.specs.Prelude.{◌≡◌, ◌≤◌, ◌<◌, length};
ghost use Rattle.layout.specs.Card.{header_length, nonterminal_count, word_count, index_count, production_count};
ghost use Rattle.layout.specs.Card.{least_header, most_header, entry_at, production_table, production_at, card_length};
ghost use Rattle.layout.specs.Card.{mark_fits, counts_fit, lengths_fit};

use crate::Card;
use octets::{byte, read16, same_bytes};

// A card before it is accepted: any bytes, with the length of their header and their four counts, by which things stand on them. Each count
// is a byte, widened once, since places are computed with it.
#[derive(Clone, Copy)]
pub struct View<'a> {
    pub bytes: &'a [u8],
    pub header: usize,
    pub nonterminals: usize,
    pub words: usize,
    pub indices: usize,
    pub productions: usize,
    pub ghost starts: { header ≡ header_length bytes.now },
    pub ghost short_header: { header ≤ most_header },
    pub ghost counts_nonterminals: { nonterminals ≡ nonterminal_count bytes.now },
    pub ghost few_nonterminals: { nonterminals < 256 },
    pub ghost counts_words: { words ≡ word_count bytes.now },
    pub ghost few_words: { words < 256 },
    pub ghost counts_indices: { indices ≡ index_count bytes.now },
    pub ghost few_indices: { indices < 256 },
    pub ghost counts_productions: { productions ≡ production_count bytes.now },
    pub ghost few_productions: { productions < 256 },
}

impl<'a> View<'a> {
    // How long the header of these bytes is. No other function knows its value.
    pub fn header_length(bytes: &[u8]) -> usize
        ensures { (result ≡ header_length bytes.now) × (result ≤ most_header) }
    {
        Card::LEAST_HEADER
    }

    pub fn of(bytes: &'a [u8]) -> View<'a>
        ensures { result.bytes.now ≡ bytes.now }
    {
        View {
            bytes,
            header: View::header_length(bytes),
            nonterminals: usize::from(byte(bytes, 4)),
            words: usize::from(byte(bytes, 5)),
            indices: usize::from(byte(bytes, 6)),
            productions: usize::from(byte(bytes, 7)),
        }
    }

    // Where entry v starts.
    pub fn entry_at(self, v: usize) -> usize
        requires { v < 256 }
        ensures { result ≡ entry_at self.entry.bytes.now v }
    {
        Card::entry_behind(self.header, v)
    }

    // Where the productions start.
    pub fn production_table(self) -> usize
        ensures { result ≡ production_table self.entry.bytes.now }
    {
        self.entry_at(self.words)
    }

    // Where production m starts.
    pub fn production_at(self, m: usize) -> usize
        requires { m < 256 }
        ensures { result ≡ production_at self.entry.bytes.now m }
    {
        self.production_table() + Card::PRODUCTION * m
    }

    // Where the last production ends.
    pub fn length(self) -> usize
        ensures { result ≡ card_length self.entry.bytes.now }
    {
        self.production_at(self.productions)
    }

    // Refusal 12 asks this.
    pub fn counts_fit(self) -> bool
        ensures { result ≡ counts_fit self.entry.bytes.now }
    {
        Card::within_limits(
            self.nonterminals,
            self.words,
            self.indices,
            self.productions,
        )
    }

    // Refusal 13 asks this.
    pub fn lengths_fit(self) -> bool
        requires { least_header ≤ length self.bytes.now }
        ensures { result ≡ lengths_fit self.entry.bytes.now }
    {
        read16(self.bytes, 8) == self.entry_at(0)
            && read16(self.bytes, 10) == self.production_table()
            && self.bytes.len() == self.length()
    }
}

// Refusal 11 asks this, before there is a view.
pub fn mark_fits(card: &[u8]) -> bool
    ensures { result ≡ mark_fits card.now }
{
    Card::LEAST_HEADER <= card.len() && same_bytes(&card[..4], b"LIG1")
}
