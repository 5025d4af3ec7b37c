// Check and Pairs (document 01, "Check, pairs, name"): a plan is replayed, and its gives are matched with their takes.
#![tactic(auto)]

mod matching;
pub mod plan;

ghost use Rattle.std.specs.Prelude.{◌≡◌};
ghost use Rattle.layout.specs.Answers.{check_number};
ghost use Rattle.refusals.specs.Number.{number_told};
ghost use Rattle.check_pairs.specs.Paired.{Pairs};

use card::Card;
use plan::Passed;
use refusals::Refusal;

// Check under an accepted card: the line's refusals, then 34.
pub fn check_line(card: Card, line: &[u8], plan: &[u8]) -> Result<(), Refusal>
    ensures { number_told result ≡ check_number card.entry.bytes.now line.now plan.now }
{
    let words = line::accept_line(card, line)?;
    if !goals::replay::replay(card, &words.places, words.count, plan) {
        return Err(Refusal::NotItsPlan);
    }
    Ok(())
}

// Is the plan, all of it, a leftmost derivation of the line under the card? The refusals of card and line come first, then 34.
pub fn check(card: &[u8], line: &[u8], plan: &[u8]) -> Result<(), Refusal>
    ensures { number_told result ≡ check_number card.now line.now plan.now }
{
    check_line(Card::check(card)?, line, plan)
}

// Check's refusals, and then the pairs.
pub fn pairs(card: &[u8], line: &[u8], plan: &[u8], room: &mut [u8]) -> Result<usize, Refusal>
    ensures { Pairs card.now line.now plan.now room.old room.new result }
{
    let accepted = Card::check(card)?;
    check_line(accepted, line, plan)?;
    let passed = Passed {
        card: accepted,
        plan,
    };
    passed.pairs_of(room)
}
