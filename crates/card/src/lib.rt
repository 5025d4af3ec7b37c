// The card: its type, the check of its bytes, its productions and the names of its words (document 01, "The card").
// What is asked before a card is accepted takes any bytes of any length: a byte past the end reads as 0.
#![tactic(auto)]

mod entries;
pub mod header;
mod names;
mod numbers;
mod productions;

ghost use Rattle.std.specs.Prelude.{◌≡◌, ◌&&◌, ◌+◌, ◌*◌, ◌≤◌, ◌<◌, IfOk, length};
ghost use Rattle.layout.specs.Card as layout;
ghost use Rattle.layout.specs.Card.{most_header, nonterminal_count, word_count, index_count, production_count};
ghost use Rattle.layout.specs.Card.{max_nonterminals, max_words, max_indices, max_productions};
ghost use Rattle.layout.specs.Card.{entry_length, entry_at, production_table, production_at, production_length, production, card_number};
ghost use Rattle.layout.specs.Answers.{name_answer, name_part};
ghost use Rattle.refusals.specs.Number.{number_told};
ghost use Rattle.card.specs.Productions.{rule_from};
ghost use Rattle.card.specs.Spelled.{answer_in};

use header::View;
use numbers::within;
use productions::Fields;
use refusals::Refusal;

// Refusals 11 to 14, 16 and 42 in their order, each over the whole card. Apart from `Card::check`, since an answer without a card needs no
// stack for one.
pub fn check(bytes: &[u8]) -> Result<(), Refusal>
    ensures { number_told result ≡ card_number bytes.now }
{
    if !header::mark_fits(bytes) {
        return Err(Refusal::Mark);
    }
    let view = View::of(bytes);
    if !view.counts_fit() {
        return Err(Refusal::Counts);
    }
    if !view.lengths_fit() {
        return Err(Refusal::Lengths);
    }
    if !view.entries_fit() {
        return Err(Refusal::Entry);
    }
    let names = productions::check(view)?;
    if !names.live() {
        return Err(Refusal::DeadName);
    }
    Ok(())
}

// An accepted card, as its bytes, with where its productions start: each of them is looked for by that place, and it is computed once.
// The limits and the places of the tables belong to this type.
#[derive(Clone, Copy)]
pub struct Card<'a> {
    pub bytes: &'a [u8],
    pub table: usize,
    pub ghost accepted: { card_number bytes.now ≡ 0 },
    pub ghost placed: { table ≡ production_table bytes.now },
}

impl<'a> Card<'a> {
    ghost use Rattle.card.specs.Checks.{Checks};

    pub const MAX_NONTERMINALS: usize = 16;

    pub const MAX_WORDS: usize = 32;

    pub const MAX_INDICES: usize = 8;

    // The power of 2 that this is.
    pub const INDICES_POWER: usize = 3;

    pub const MAX_PRODUCTIONS: usize = 64;

    // Bytes in the shortest header, in a word entry and in a production.
    pub const LEAST_HEADER: usize = 12;

    pub const ENTRY: usize = 12;

    pub const PRODUCTION: usize = 6;

    // Are these four counts within a card's limits? Any numbers may be asked of, those of a header among them.
    pub fn within_limits(
        nonterminals: usize,
        words: usize,
        indices: usize,
        productions: usize,
    ) -> bool
        ensures { result ≡ (layout.within 1 max_nonterminals nonterminals && (layout.within 1 max_words words
            && (layout.within 0 max_indices indices && layout.within 1 max_productions productions))) }
    {
        within(1, Self::MAX_NONTERMINALS, nonterminals)
            && within(1, Self::MAX_WORDS, words)
            && within(0, Self::MAX_INDICES, indices)
            && within(1, Self::MAX_PRODUCTIONS, productions)
    }

    // Where entry v starts behind a header of so many bytes.
    pub fn entry_behind(header: usize, v: usize) -> usize
        requires { (header ≤ most_header) × (v < 256) }
        ensures { result ≡ header + entry_length * v }
    {
        header + Self::ENTRY * v
    }

    // The card, if `check` refuses nothing of its bytes.
    pub fn check(bytes: &'a [u8]) -> Result<Card<'a>, Refusal>
        ensures { Checks bytes.now result }
    {
        check(bytes)?;
        let view = View::of(bytes);
        Ok(Card {
            bytes,
            table: view.production_table(),
        })
    }

    // Counts and places straight from the bytes, which are known to be there: `View` is of any bytes, and tests each place.
    pub fn nonterminals(self) -> usize
        ensures counts { result ≡ nonterminal_count self.entry.bytes.now }
        ensures few { result ≤ max_nonterminals }
    {
        usize::from(self.bytes[4])
    }

    pub fn words(self) -> usize
        ensures counts { result ≡ word_count self.entry.bytes.now }
        ensures few { result ≤ max_words }
    {
        usize::from(self.bytes[5])
    }

    pub fn indices(self) -> usize
        ensures counts { result ≡ index_count self.entry.bytes.now }
        ensures few { result ≤ max_indices }
    {
        usize::from(self.bytes[6])
    }

    pub fn productions(self) -> usize
        ensures counts { result ≡ production_count self.entry.bytes.now }
        ensures few { result ≤ max_productions }
    {
        usize::from(self.bytes[7])
    }

    // Where entry v starts.
    pub fn entry_at(self, v: usize) -> usize
        requires { v < 256 }
        ensures { result ≡ entry_at self.entry.bytes.now v }
    {
        Self::entry_behind(View::header_length(self.bytes), v)
    }

    // Where production m starts.
    pub fn production_at(self, m: usize) -> usize
        requires { m < production_count self.bytes.now }
        ensures at { result ≡ production_at self.entry.bytes.now m }
        ensures inside { result + production_length ≤ length self.entry.bytes.now }
    {
        self.table + Self::PRODUCTION * m
    }

    // Production m.
    pub fn production(self, m: usize) -> Production
        requires { m < production_count self.bytes.now }
        ensures { rule_from result ≡ production self.entry.bytes.now m }
    {
        Fields::at(self.bytes, self.production_at(m)).production()
    }
}

// What a production does with the stack.
#[derive(Clone, Copy)]
pub enum Action {
    Take(u8),
    Keep,
    Give(u8),
}

// A word, or two elements, the side first or last.
#[derive(Clone, Copy)]
pub enum Production {
    Word {
        left: u8,
        word: u8,
    },
    SideFirst {
        left: u8,
        action: Action,
        side: u8,
        dependent: u8,
    },
    SideLast {
        left: u8,
        action: Action,
        dependent: u8,
        side: u8,
    },
}

// Where a spelling stands on its card, and how long it is.
#[derive(Clone, Copy)]
pub struct Spelling {
    pub offset: usize,
    pub size: usize,
}

// Where a word's spelling stands on the card, or why there is none: the card's refusals, then 35 for a word that the card does not have.
pub fn find_name(bytes: &[u8], word: usize) -> Result<Spelling, Refusal>
    ensures answer { answer_in result ≡ name_answer bytes.now word }
    ensures inside { IfOk result (λ s. s.offset + s.size ≤ length bytes.now) }
{
    let card = Card::check(bytes)?;
    if card.words() <= word {
        return Err(Refusal::NoSuchWord);
    }
    let at = card.entry_at(word);
    Ok(Spelling {
        offset: at + 1,
        size: usize::from(bytes[at]),
    })
}

// The spelling as the card's own bytes; where there is none the empty part, as document 01 has it.
pub fn name(bytes: &[u8], word: usize) -> &[u8]
    ensures { result.now ≡ name_part bytes.now word }
{
    match find_name(bytes, word) {
        Ok(spelling) => &bytes[spelling.offset..spelling.offset + spelling.size],
        Err(_) => &bytes[..0],
    }
}
