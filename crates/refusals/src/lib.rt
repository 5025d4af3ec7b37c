// Why a call does not do what it is asked: document 01's refusals, and those of document 02, each with its number.
#![tactic(auto)]

ghost use Rattle.std.specs.Prelude.{◌≡◌};
ghost use Rattle.refusals.specs.Number.{number_of, number_told};

// In the order in which documents 01 and 02 number them.
#[derive(Clone, Copy, Debug, PartialEq, Eq)]
pub enum Refusal {
    // The card: its mark, its counts, its offsets or its length, a word's entry, a production.
    Mark = 11,
    Counts = 12,
    Lengths = 13,
    Entry = 14,
    Production = 16,
    // The line: no words, a byte that no word has, too many words, a word that the card does not have.
    NoWords = 21,
    StrayByte = 22,
    ManyWords = 23,
    UnknownWord = 24,
    // The line has words, and no derivation.
    NoReading = 25,
    // The lent rooms: for the chart, for the plan, for what is handed out.
    ChartRoom = 31,
    PlanRoom = 32,
    OutputRoom = 33,
    // Bytes that are no plan of the line, and a number that no word of the card has.
    NotItsPlan = 34,
    NoSuchWord = 35,
    // A sheet of too many lines.
    ManyLines = 41,
    // A name on the right of a production of the card, and on the left of none.
    DeadName = 42,
}

impl From<Refusal> for u64 {
    ghost from_gives = { λ refusal number. number ≡ number_of refusal };

    fn from(refusal: Refusal) -> u64 {
        // A case's number is had by `as` alone.
        refusal as u64
    }
}

// The number of an answer: 0 where nothing is refused.
pub fn number<T>(answer: &Result<T, Refusal>) -> u64
    ensures { result ≡ number_told answer.now }
{
    match answer {
        Ok(_) => 0,
        Err(refusal) => u64::from(*refusal),
    }
}
