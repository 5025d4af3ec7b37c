// The pairs of a plan that passes Check.
ghost use Rattle.std.specs.Prelude.{◌≡◌, ◌+◌, ◌*◌, ◌≤◌, length};
ghost use Rattle.check_pairs.specs.Checked.{Checked};

use crate::matching::{Matching, Stretch, action_of, one_give, side_of};
use card::{Action, Card};
use goals::replay::step_at;
use refusals::Refusal;

// A plan and the card under which it passes Check, for some line.
#[derive(Clone, Copy)]
pub struct Passed<'a> {
    pub card: Card<'a>,
    pub plan: &'a [u8],
    pub ghost checked: { ∥ Checked card.bytes.now plan.now ∥₁ },
}

impl<'a> Passed<'a> {
    ghost use Rattle.layout.specs.Steps.{steps_of};
    ghost use Rattle.layout.specs.Answers.{plan_pairs, pairs_after};
    ghost use Rattle.check_pairs.specs.Matching.{StepIn};
    ghost use Rattle.check_pairs.specs.Paired.{PairsOf};

    // What step k does with the stack, and its side. A step has four bytes.
    fn step_in(self, k: usize) -> (Action, Stretch)
        requires { 4 * k + 4 ≤ length self.plan.now }
        ensures { StepIn self.entry.card.bytes.now self.entry.plan.now k result.0 result.1 }
    {
        let step = step_at(self.plan, 4 * k);
        let production = self.card.production(usize::from(step.number));
        (action_of(production), side_of(production, step))
    }

    // How many pairs the plan has: its give steps.
    fn gives(self) -> usize
        ensures pairs { result ≡ length (plan_pairs self.entry.card.bytes.now (steps_of self.entry.plan.now)) }
        ensures few { result ≤ length self.entry.plan.now }
    {
        let mut count = 0;
        // No chain: that there is a step k is known of the range, and not inside a closure.
        for k in 0..self.plan.len() >> 2 {
            let (action, _) = self.step_in(k);
            count += one_give(action);
        }
        count
    }

    // Writes the pairs, from the last to the first, in one pass back over the plan. Not by `chunks_exact`, here and above: it divides.
    fn write_pairs(self, count: usize, room: &mut [u8])
        requires counted { count ≡ length (plan_pairs self.card.bytes.now (steps_of self.plan.now)) }
        requires enough { 2 * count ≤ length room.old }
        ensures { room.new ≡ pairs_after (plan_pairs self.entry.card.bytes.now (steps_of self.entry.plan.now)) room.old }
    {
        let mut matching = Matching::start(count);
        for k in (0..self.plan.len() >> 2).rev() {
            let (action, side) = self.step_in(k);
            matching.meet(action, side, room);
        }
    }

    // The pairs, and how many they are: each give's place and its take's, two bytes a pair, in plan order. Whether the room is enough is
    // known before the first byte is written.
    pub fn pairs_of(self, room: &mut [u8]) -> Result<usize, Refusal>
        ensures { PairsOf self.entry.card.bytes.now self.entry.plan.now room.old room.new result }
    {
        let count = self.gives();
        if room.len() < 2 * count {
            return Err(Refusal::OutputRoom);
        }
        self.write_pairs(count, room);
        Ok(count)
    }
}
