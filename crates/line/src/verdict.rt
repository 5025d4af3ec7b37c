// The verdict on a line whose bytes all fit, by what was counted and looked up at its end.
ghost use Rattle.grammar.specs.Input.{Holds, Below};
ghost use Rattle.places.specs.Places.{word_test};
ghost use Rattle.line.specs.Accepted.{Verdict};

use places::{MOST_WORDS, Words};
use refusals::Refusal;

// A word is known where its set is not empty, and past the count no word stands. The places are lent: by value they would be copied before
// they are looked at.
pub fn verdict(count: usize, places: &[u32; MOST_WORDS]) -> Result<Words, Refusal>
    requires { Below (Holds (word_test places.now)) count }
    ensures { Verdict count places.now result }
{
    if count == 0 {
        return Err(Refusal::NoWords);
    }
    if MOST_WORDS < count {
        return Err(Refusal::ManyWords);
    }
    // A `for` and no `any`, as in `octets`.
    for set in &places[..count] {
        if *set == 0 {
            return Err(Refusal::UnknownWord);
        }
    }
    Ok(Words {
        count,
        places: *places,
    })
}
