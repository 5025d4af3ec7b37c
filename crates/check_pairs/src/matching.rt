// What the pairs of a plan are made of: each give with the take that removes its index (document 01, "Check, pairs, name"), and of both the
// last word of the side (document 02, Paper 6).
ghost use Rattle.std.specs.Prelude.{◌≡◌, ◌≤◌};
ghost use Rattle.grammar.specs.Pairs.{stretch, side_of, place_in};
ghost use Rattle.grammar.specs.Matching.{one_give};
ghost use Rattle.card.specs.Productions.{action_from, rule_from};
ghost use Rattle.goals.specs.Shown.{action_of, step_from};
ghost use Rattle.check_pairs.specs.Matching.{stretch_from, HasWords, started, CanMatch, met, room_met};

use card::{Action, Production};
use goals::replay::{ENTRIES, StepBytes};

// A stretch of the line: the words from place `from` up to place `to`.
#[derive(Clone, Copy)]
pub struct Stretch {
    pub from: u8,
    pub to: u8,
}

impl Stretch {
    pub fn between(from: u8, to: u8) -> Self
        ensures { stretch_from result ≡ stretch from to }
    {
        Stretch { from, to }
    }

    // What a pair says of a side: its last word. A side of a plan that passes has one.
    pub fn last_word(self) -> u8
        requires { HasWords (stretch_from self) }
        ensures { result ≡ place_in (stretch_from self) }
    {
        self.to - 1
    }
}

// A word leaves the stack as it is.
pub fn action_of(production: Production) -> Action
    ensures { action_from result ≡ action_of (rule_from production) }
{
    match production {
        Production::Word { .. } => Action::Keep,
        Production::SideFirst { action, .. } | Production::SideLast { action, .. } => action,
    }
}

// The side of a step: what lies before the split where the side stands first, and after it where it stands last.
pub fn side_of(production: Production, step: StepBytes) -> Stretch
    ensures { stretch_from result ≡ side_of (rule_from production) (step_from step) }
{
    match production {
        Production::Word { .. } => Stretch::between(step.start, step.end),
        Production::SideFirst { .. } => Stretch::between(step.start, step.split),
        Production::SideLast { .. } => Stretch::between(step.split, step.end),
    }
}

pub fn one_give(action: Action) -> usize
    ensures { (result ≡ one_give (action_from action)) × (result ≤ 1) }
{
    match action {
        Action::Take(_) | Action::Keep => 0,
        Action::Give(_) => 1,
    }
}

// The places of the takes that wait for their give, how many they are, and how many pairs are still to be written. An array, since there is no
// heap.
#[derive(Clone, Copy)]
pub struct Matching {
    takes: [u8; ENTRIES],
    waiting: usize,
    unwritten: usize,
}

impl Matching {
    pub fn start(count: usize) -> Self
        ensures { result ≡ started count }
    {
        Matching {
            takes: [0; ENTRIES],
            waiting: 0,
            unwritten: count,
        }
    }

    // A take's place waits; a give writes its pair, with the place that came last.
    pub fn meet(&mut self, action: Action, side: Stretch, room: &mut [u8])
        requires { CanMatch (action_from action) (stretch_from side) room.old self.old }
        ensures { (self.new ≡ met (action_from action) (stretch_from side) self.old)
            × (room.new ≡ room_met (action_from action) (stretch_from side) self.old room.old) }
    {
        let place = side.last_word();
        match action {
            Action::Take(_) => {
                self.takes[self.waiting] = place;
                self.waiting += 1;
            }
            Action::Keep => {}
            Action::Give(_) => {
                self.waiting -= 1;
                self.unwritten -= 1;
                let pair = 2 * self.unwritten;
                room[pair] = place;
                room[pair + 1] = self.takes[self.waiting];
            }
        }
    }
}
