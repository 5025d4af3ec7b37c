// A plan is replayed on goals (specs/Goals.antt): the nonterminals that are still to be replaced, leftmost on top.
ghost use Rattle.std.specs.Prelude.{◌≡◌, ◌&&◌, ◌<◌, ◌≤◌, ◌+◌, length, ltb};
ghost use Rattle.places.specs.Places.{word_test};
ghost use Rattle.layout.specs.Card.{grammar_of};
ghost use Rattle.layout.specs.Steps.{steps_of};
ghost use Rattle.grammar.specs.Rewriting.{Lexical};
ghost use Rattle.card.specs.Productions.{action_from, rule_from};
ghost use Rattle.goals.specs.Goals as model;
ghost use Rattle.goals.specs.Shown.{tops, action_of, CanTake, acted, opened, Room, replaced_in, started};
ghost use Rattle.goals.specs.Shown.{Within, first_of, split_fits_top, fits_top, StepAt, Replayed};

use card::{Action, Card, Production};
use places::MOST_WORDS;

// A step of a plan as its four bytes: the production's number, and its stretch with the split.
#[derive(Clone, Copy)]
pub struct StepBytes {
    pub number: u8,
    pub start: u8,
    pub split: u8,
    pub end: u8,
}

// The goal on top: its nonterminal, how deep its stack is, the index on top of that, 0 where there is none, as in document 01, and its stretch.
#[derive(Clone, Copy)]
struct Top {
    name: u8,
    depth: u8,
    index: u8,
    start: u8,
    end: u8,
}

// One entry more than a line has words, so that the next one's place is always there.
pub const ENTRIES: usize = MOST_WORDS + 1;

// A goal: its nonterminal, where its stretch ends, and where its own indices begin in the stack of all. All are bytes, as in a step: so the
// goals are small, and are soon filled in.
#[derive(Clone, Copy)]
struct Goal {
    name: u8,
    end: u8,
    base: u8,
}

// The goals, the first one last, and the indices of all their stacks: how many there are of each, and the place up to which all words are
// reached. Arrays, since there is no heap; the indices are one stack, of which each goal has a part from its base on, so no type of a stack serves.
// That they are few follows from how goals tile the line, which no method keeps by itself: so it stands in contracts.
#[derive(Drop)]
struct Goals {
    goals: [Goal; ENTRIES],
    count: usize,
    stack: [u8; ENTRIES],
    top: u8,
    place: u8,
}

impl Top {
    // Is the goal the left side's, bare, over the one word at its start, and is `word` among those that stand there?
    fn word_fits(self, left: u8, word: u8, split: u8, here: u32) -> bool
        requires { self.start < 255 }
        ensures { result ≡ fits_top (Lexical left word) here self split }
    {
        left == self.name
            && self.depth == 0
            && split == self.end
            && self.end == self.start + 1
            && bits::has(here, word)
    }

    // Does the action fit the stack, and leave one that is less deep than `span`?
    fn action_fits(self, action: Action, span: u8) -> bool
        requires { self.depth < 255 }
        ensures { result ≡ (model.action_fits (action_from action) self.depth self.index
            && ltb (model.depth_after (action_from action) self.depth) span) }
    {
        match action {
            Action::Take(g) => self.depth != 0 && g == self.index && self.depth - 1 < span,
            Action::Keep => self.depth < span,
            Action::Give(_) => self.depth + 1 < span,
        }
    }

    // Is the goal the left side's, and does the split leave some words to either element?
    fn split_fits(self, left: u8, split: u8) -> bool
        ensures { result ≡ split_fits_top left self split }
    {
        self.name == left && self.start < split && split < self.end
    }

    // Does the production fit the goal, with this split and the set of the words at its start?
    fn fits(self, production: Production, split: u8, here: u32) -> bool
        requires { (self.start < 255) × (self.depth < 255) }
        ensures { result ≡ fits_top (rule_from production) here self split }
    {
        match production {
            Production::Word { left, word } => self.word_fits(left, word, split, here),
            Production::SideFirst { left, action, .. } => {
                self.split_fits(left, split) && self.action_fits(action, self.end - split)
            }
            Production::SideLast { left, action, .. } => {
                self.split_fits(left, split) && self.action_fits(action, split - self.start)
            }
        }
    }
}

impl Goals {
    // One goal, the start nonterminal over all n words.
    fn start(n: u8) -> Self
        ensures { result ≡ started n }
    {
        let mut goals = [Goal {
            name: 0,
            end: 0,
            base: 0,
        }; ENTRIES];
        goals[0].end = n;
        Goals {
            goals,
            count: 1,
            stack: [0; ENTRIES],
            top: 0,
            place: 0,
        }
    }

    // The index on top of all stacks, 0 where there is none.
    fn last_index(&self) -> u8
        requires { self.now.top ≤ 24 }
        ensures { result ≡ model.top_index (tops 0 self.now.stack self.now.top) }
    {
        if self.top == 0 {
            return 0;
        }
        self.stack[usize::from(self.top) - 1]
    }

    // The first goal as productions are tried on it, if one is left.
    fn first(&self) -> Option<Top>
        requires { Within self.now }
        ensures { result ≡ first_of self.now }
    {
        let m = self.count.checked_sub(1)?;
        let goal = self.goals[m];
        Some(Top {
            name: goal.name,
            depth: self.top - goal.base,
            index: self.last_index(),
            start: self.place,
            end: goal.end,
        })
    }

    // An action that fits acts on the first goal's stack.
    fn act(&mut self, action: Action)
        requires { (self.old.top ≤ 24) × CanTake (action_from action) self.old.top }
        ensures { self.new ≡ acted (action_from action) self.old }
    {
        match action {
            Action::Take(_) => self.top -= 1,
            Action::Keep => {}
            Action::Give(g) => {
                self.stack[usize::from(self.top)] = g;
                self.top += 1;
            }
        }
    }

    // Two goals where the first stood, the first element on top: the second has the end and the base that were there.
    fn open_pair(&mut self, first: u8, second: u8, split: u8, base: u8)
        requires { (0 < self.old.count) × (self.old.count ≤ 24) }
        ensures { self.new ≡ opened first second split base self.old }
    {
        self.goals[self.count - 1].name = second;
        self.goals[self.count] = Goal {
            name: first,
            end: split,
            base,
        };
        self.count += 1;
    }

    // A production that fits replaces the first goal: a word is reached, or a pair is opened.
    fn replace(&mut self, production: Production, split: u8)
        requires { Room (action_of (rule_from production)) self.old }
        ensures { self.new ≡ replaced_in (rule_from production) split self.old }
    {
        match production {
            Production::Word { .. } => {
                self.count -= 1;
                self.place = self.goals[self.count].end;
            }
            Production::SideFirst {
                action,
                side,
                dependent,
                ..
            } => {
                self.act(action);
                self.open_pair(side, dependent, split, self.top);
            }
            Production::SideLast {
                action,
                dependent,
                side,
                ..
            } => {
                let base = self.goals[self.count - 1].base;
                self.act(action);
                self.open_pair(dependent, side, split, base);
            }
        }
    }

    // One step: it has to be of the first goal's stretch, and its production has to be there and to fit.
    fn advance(&mut self, card: Card, places: &[u32; MOST_WORDS], step: StepBytes) -> bool
        requires { Within self.old }
        ensures { Replayed card.entry.bytes.now places.now step self.old self.new result }
    {
        let Some(top) = self.first() else {
            return false;
        };
        if step.start != top.start || step.end != top.end {
            return false;
        }
        let number = usize::from(step.number);
        if card.productions() <= number {
            return false;
        }
        let production = card.production(number);
        if !top.fits(production, step.split, places[usize::from(top.start)]) {
            return false;
        }
        self.replace(production, step.split);
        true
    }
}

pub fn step_at(plan: &[u8], at: usize) -> StepBytes
    requires { at + 4 ≤ length plan.now }
    ensures { StepAt plan.now at result }
{
    StepBytes {
        number: plan[at],
        start: plan[at + 1],
        split: plan[at + 2],
        end: plan[at + 3],
    }
}

// Does the plan, all its bytes, derive the line of n words, whatever stands past them? The first step that cannot stand ends it. There are
// never more goals or indices than words; a line of no words has one goal, which no step fits.
pub fn replay(card: Card, places: &[u32; MOST_WORDS], n: usize, plan: &[u8]) -> bool
    requires { n ≤ 24 }
    ensures { result ≡ model.replay_from (grammar_of card.entry.bytes.now) (word_test places.now)
        (model.goals_start n) (steps_of plan.now) }
{
    if plan.len() & 3 != 0 {
        return false;
    }
    // By `as`: a line has 24 words at most, and `try_from` would test that once more.
    let mut goals = Goals::start(n as u8);
    // No `chunks_exact` or `as_chunks`: they divide, and the archive has no division.
    for k in 0..plan.len() >> 2 {
        if !goals.advance(card, places, step_at(plan, 4 * k)) {
            return false;
        }
    }
    goals.count == 0
}
