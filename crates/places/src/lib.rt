// The words of an accepted line, place by place, as sets of word numbers: a bit for each number. Their test is that of specs/Places.antt,
// and `bits::has` asks it of one place.
#![tactic(auto)]

ghost use Rattle.std.specs.Prelude.{◌≤◌};
ghost use Rattle.grammar.specs.Input.{Holds, Below};
ghost use Rattle.places.specs.Places.{word_test};

// The most words that a line may have.
pub const MOST_WORDS: usize = 24;

// How many words, and at each place the set of those that are spelled so, none past the last. That an accepted line has some is promised
// with it (`WordsOf` of line): a chart can be built of none.
#[derive(Clone, Copy)]
pub struct Words {
    pub count: usize,
    pub places: [u32; MOST_WORDS],
    pub ghost few: { count ≤ 24 },
    pub ghost ends: { Below (Holds (word_test places)) count },
}
