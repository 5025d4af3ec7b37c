// The table of sets of productions, each 64 bits: those of a nonterminal or a word, by the card alone; those that have both elements at a
// split of the span in hand; and for each span those that it can serve.
#![tactic(auto)]

pub mod like;

ghost use Rattle.std.specs.Prelude.{◌≡◌, ℕ, ◌+◌, ◌*◌, ◌≤◌, ◌<◌, length, get_or, replicate};
ghost use Rattle.layout.specs.Card.{max_nonterminals, max_productions, grammar_of};
ghost use Rattle.layout.specs.Line.{most_words};
ghost use Rattle.layout.specs.Rules.{RuleCounted};
ghost use Rattle.layout.specs.Card.{max_words, max_indices};
ghost use Rattle.card.specs.Productions.{rule_from};
ghost use Rattle.bits.specs.Bits.{bit_of};
ghost use Rattle.records.specs.Cells.{number_of, spans};
ghost use Rattle.sets.specs.Places.{bounds, class_count, splits_at, spans_at, first_at, OnlyClasses, OnlyMeeting};
ghost use Rattle.sets.specs.Classes.{Classified, with_bit, Joined, OfWords};
ghost use Rattle.sets.specs.Spans.{Rows, Met, Meets, SplitsOf, Noted};

use card::{Card, Production};
use places::MOST_WORDS;
use records::record::OpenCell;
use records::span::Span;

// For each nonterminal five sets: its own productions; those whose first element is a side or a dependent of this name; and those whose
// second element is. Then the word productions of each word.
const FIRST_SIDES: usize = Card::MAX_NONTERMINALS;

const FIRST_DEPENDENTS: usize = 2 * Card::MAX_NONTERMINALS;

const SECOND_SIDES: usize = 3 * Card::MAX_NONTERMINALS;

const SECOND_DEPENDENTS: usize = 4 * Card::MAX_NONTERMINALS;

const WORDS: usize = 5 * Card::MAX_NONTERMINALS;

// For each bound of the line's words, at which a span starts, is split or ends, the productions that meet there; and the splits where some do.
const MEETING: usize = WORDS + Card::MAX_WORDS;

const SPLITS: usize = MEETING + MOST_WORDS + 1;

// The sets of spans come last.
pub const SPANS: usize = SPLITS + 1;

// The place of the first set of a span; its second comes next.
fn place(span: Span) -> usize
    ensures at { result ≡ first_at span.from span.to }
    ensures below { result + 1 < spans_at + 2 * spans span.words }
{
    SPANS + 2 * span.number()
}

// Where the rows and columns of a line of so many words begin: past two sets for each of its spans.
fn rows(words: usize) -> usize
    requires { words ≤ most_words }
    ensures { result ≡ spans_at + 2 * spans words }
{
    SPANS + words * (words + 1)
}

// One production into the set at a place. `1u64 << k` is written out here, below and in like.rt: these sets have 64 bits, those of words 32
// (`bits::with` and `bits::has`), and a trait for one shift would be no plainer.
fn put(sets: &mut [u64], at: usize, p: usize)
    requires { (at < length sets.old) × (p < max_productions) }
    ensures { sets.new ≡ with_bit sets.old at p }
{
    sets[at] |= 1u64 << p;
}

// One production into the sets of its nonterminals and its word.
fn class_one(sets: &mut [u64], rule: Production, p: usize)
    requires { (class_count ≤ length sets.old) × (p < max_productions)
        × RuleCounted max_nonterminals max_words max_indices (rule_from rule) }
    ensures { Joined (rule_from rule) p sets.old sets.new }
{
    match rule {
        Production::Word { left, word } => {
            put(sets, usize::from(left), p);
            put(sets, WORDS + usize::from(word), p);
        }
        Production::SideFirst {
            left,
            side,
            dependent,
            ..
        } => {
            put(sets, usize::from(left), p);
            put(sets, FIRST_SIDES + usize::from(side), p);
            put(sets, SECOND_DEPENDENTS + usize::from(dependent), p);
        }
        Production::SideLast {
            left,
            dependent,
            side,
            ..
        } => {
            put(sets, usize::from(left), p);
            put(sets, FIRST_DEPENDENTS + usize::from(dependent), p);
            put(sets, SECOND_SIDES + usize::from(side), p);
        }
    }
}

// The sets of every nonterminal and word of a card, in a table that is all 0.
pub fn classify(card: Card, sets: &mut [u64])
    requires { (class_count ≤ length sets.old) × (sets.old ≡ replicate (length sets.old) 0) }
    ensures { Classified (grammar_of card.entry.bytes.now) sets.new × OnlyClasses sets.old sets.new }
{
    for p in 0..card.productions() {
        class_one(sets, card.production(p), p);
    }
}

// The word productions for the words of a set.
pub fn of_words(sets: &[u64], words: u32) -> u64
    requires { class_count ≤ length sets.now }
    ensures { OfWords sets.now words result }
{
    let mut productions = 0u64;
    for w in bits::numbers(u64::from(words)) {
        productions |= sets[WORDS + w];
    }
    productions
}

// What meets over a span: at each split the productions that have both elements there, and the splits; the answer has all of them.
pub fn meet(sets: &mut [u64], span: Span) -> u64
    requires { Rows span.words sets.old }
    ensures { Met sets.new span.from span.to × Meets sets.new span.from span.to result × OnlyMeeting sets.old sets.new }
{
    let rows = rows(span.words);
    let splits = sets[rows + 2 * span.from] & sets[rows + 2 * span.to + 1];
    sets[SPLITS] = splits;
    let mut productions = 0u64;
    for k in bits::numbers(splits) {
        let first = sets[place(span.before(k))];
        let second = sets[place(span.after(k)) + 1];
        let here = first & second;
        sets[MEETING + k] = here;
        productions |= here;
    }
    productions
}

// Nothing meets in a span of one word.
pub fn meet_none(sets: &mut [u64])
    requires { spans_at ≤ length sets.old }
    ensures { (get_or sets.new splits_at 0 ≡ 0) × OnlyMeeting sets.old sets.new }
{
    sets[SPLITS] = 0;
}

// A cell got records: the productions that they can serve, and where its span has one, that it ends and starts there.
pub fn note(sets: &mut [u64], cell: OpenCell, bare: Option<usize>)
    requires { (cell.words ≤ most_words) × (cell.from < cell.to) × (cell.to ≤ cell.words) × (cell.left < max_nonterminals)
        × Rows cell.words sets.old }
    ensures { Noted cell.words cell.left cell.from cell.to (number_of bare) sets.old sets.new }
{
    let span = cell.span();
    let a = usize::from(cell.left);
    let at = place(span);
    let mut first = sets[FIRST_DEPENDENTS + a];
    let mut second = sets[SECOND_DEPENDENTS + a];
    if bare.is_some() {
        first |= sets[FIRST_SIDES + a];
        second |= sets[SECOND_SIDES + a];
    }
    let rows = rows(span.words);
    let row = rows + 2 * span.from;
    let column = rows + 2 * span.to + 1;
    if first != 0 {
        sets[at] |= first;
        sets[row] |= 1u64 << cell.to;
    }
    if second != 0 {
        sets[at + 1] |= second;
        sets[column] |= 1u64 << cell.from;
    }
}

// The splits at which production p has both elements and none of the productions like it has.
pub fn splits_of(sets: &[u64], p: usize, like: u64) -> u64
    requires { (p < max_productions) × (spans_at ≤ length sets.now) × ((k : ℕ) → bit_of k (get_or sets.now splits_at 0) ≡ 1 → k < bounds) }
    ensures { SplitsOf sets.now p like result }
{
    let bit = 1u64 << p;
    let mut served = 0u64;
    for k in bits::numbers(sets[SPLITS]) {
        let here = sets[MEETING + k];
        if here & bit != 0 && here & like == 0 {
            served |= 1u64 << k;
        }
    }
    served
}
