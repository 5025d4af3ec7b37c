// A plan read off a chart (document 01, "The plan"): a side is unfolded with nothing pending, a spine with its pending continuations,
// and each unfolding leads to the other, over shorter and shorter stretches. Two functions, since document 01 asks for two that call each other.
#![tactic(auto)]

ghost use Rattle.std.specs.Prelude.{◌+◌, ◌*◌, ◌≤◌, [], length};
ghost use Rattle.layout.specs.Steps.{step_bytes};
ghost use Rattle.unfold.specs.Unfold.{Unfoldable, Plans, Found};
ghost use Rattle.layout.specs.Written.{Wrote};
ghost use Rattle.unfold.specs.Spine.{IsStart, NodeOf, alone, Stays, Fits, GoesOn, step_for};

use card::{Action, Card, Production};
use octets::read16;

// A record takes so many bytes. Written here too, since a chart is read here as bytes, without the crate that writes its records.
const RECORD: usize = 16;

// A stack has a place for each word of the longest line. Written here, since of `places`, which has the limit, nothing else is wanted.
const MOST_WORDS: usize = 24;

// What a record says of its step: the production, the stretch and the positions of the antecedents, as its bytes have them: one that is none is
// not looked at.
#[derive(Clone, Copy)]
pub struct Node {
    pub production: u8,
    pub from: u8,
    pub to: u8,
    pub side: usize,
    pub dependent: usize,
    pub continuation: usize,
}

// The record at position m.
fn node_at(chart: &[u8], m: usize) -> Node
    requires { 16 * m + 16 ≤ length chart.now }
    ensures { NodeOf chart.now m result }
{
    let at = RECORD * m;
    Node {
        production: chart[at + 7],
        from: chart[at + 2],
        to: chart[at + 3],
        side: read16(chart, at + 8),
        dependent: read16(chart, at + 10),
        continuation: read16(chart, at + 12),
    }
}

// A spine to unfold: the position of its record, and where the positions of its pending continuations stand, stack[base..depth],
// the last one first to come. The stack is an array that is lent, since there is no heap; its depth goes by value, since each unfolding comes back to its own.
#[derive(Clone, Copy)]
pub struct Rest {
    pub position: usize,
    pub base: usize,
    pub depth: usize,
}

// Where a spine goes on: a take goes on with the continuation that was added last, which is there, and not with its recorded
// dependent; a give adds its own.
fn onward(a: Action, node: Node, stack: &mut [u16; MOST_WORDS], whole: Rest) -> Rest
    requires { Fits a node stack.old whole }
    ensures { GoesOn a node stack.old whole stack.new result }
{
    let depth = whole.depth;
    match a {
        Action::Take(_) => {
            let last = depth - 1;
            let waiting = usize::from(stack[last]);
            Rest {
                position: waiting,
                depth: last,
                ..whole
            }
        }
        Action::Keep => Rest {
            position: node.dependent,
            ..whole
        },
        Action::Give(_) => {
            // By `as`: it was read from two bytes, and `try_from` would test that once more.
            stack[depth] = node.continuation as u16;
            Rest {
                position: node.dependent,
                depth: depth + 1,
                ..whole
            }
        }
    }
}

// The four bytes of a record's step, split at k; the next step stands after them.
fn put_step(plan: &mut [u8], at: usize, node: Node, k: u8) -> usize
    requires { at + 4 ≤ length plan.old }
    ensures { Wrote plan.old at (step_bytes (step_for node k)) plan.new result }
{
    plan[at..at + 4].copy_from_slice(&[node.production, node.from, k, node.to]);
    at + 4
}

// What is left of a record when its step is written, with where the plan goes on: of a word nothing, and else the position of its
// side and the rest of its spine, whichever comes first.
#[derive(Clone, Copy)]
pub enum Left {
    Nothing {
        next: usize,
    },
    SideFirst {
        beside: usize,
        rest: Rest,
        next: usize,
    },
    SideLast {
        rest: Rest,
        beside: usize,
        next: usize,
    },
}

// What is only read: a card and a chart. Plan and stack are written, and stay parameters: a struct of `&mut` has each contract say that they
// are the same ones.
#[derive(Clone, Copy)]
struct Source<'a> {
    card: Card<'a>,
    chart: &'a [u8],
}

impl Source<'_> {
    ghost use Rattle.unfold.specs.Unfolding.{Asked, Opens, Unfolds, UnfoldsSpine};

    // Writes the step of a record, and says what is left of it. Both unfoldings do this first.
    #[inline(always)]
    fn open_record(
        &self,
        plan: &mut [u8],
        stack: &mut [u16; MOST_WORDS],
        whole: Rest,
        at: usize,
    ) -> Left
        requires { Asked self.now stack.old whole plan.old at }
        ensures { Opens self.now stack.old whole stack.new plan.old at plan.new result }
    {
        let node = node_at(self.chart, whole.position);
        let rule = self.card.production(usize::from(node.production));
        match rule {
            Production::Word { .. } => {
                let next = put_step(plan, at, node, node.to);
                Left::Nothing { next }
            }
            Production::SideFirst { action, .. } => {
                let beside = node.side;
                let rest = onward(action, node, stack, whole);
                let first = node_at(self.chart, beside);
                let next = put_step(plan, at, node, first.to);
                Left::SideFirst { beside, rest, next }
            }
            Production::SideLast { action, .. } => {
                let beside = node.side;
                let rest = onward(action, node, stack, whole);
                let last = node_at(self.chart, beside);
                let next = put_step(plan, at, node, last.from);
                Left::SideLast { rest, beside, next }
            }
        }
    }

    // The record at position m with nothing pending, and so no take: what is on the stack belongs to others, and stays.
    #[cycle(side_spine)]
    fn side(
        &self,
        plan: &mut [u8],
        stack: &mut [u16; MOST_WORDS],
        m: usize,
        depth: usize,
        at: usize,
    ) -> usize
        requires { Asked self.now stack.old (alone m depth) plan.old at }
        ensures unfolds { Unfolds self.now m [] plan.old at plan.new result }
        ensures stays { Stays depth stack.old stack.new }
    {
        let whole = Rest {
            position: m,
            base: depth,
            depth,
        };
        let left = self.open_record(plan, stack, whole, at);
        match left {
            Left::Nothing { next } => next,
            Left::SideFirst { beside, rest, next } => {
                let after = self.side(plan, stack, beside, rest.depth, next);
                self.spine(plan, stack, rest, after)
            }
            Left::SideLast { rest, beside, next } => {
                let after = self.spine(plan, stack, rest, next);
                self.side(plan, stack, beside, depth, after)
            }
        }
    }

    // A record with what is pending for it. A side that comes first has its place on the stack above what is pending; one that comes
    // last finds nothing pending any more. A stack is less deep than its stretch is long, so a place for each word of a line is enough.
    #[cycle(side_spine)]
    fn spine(&self, plan: &mut [u8], stack: &mut [u16; MOST_WORDS], whole: Rest, at: usize) -> usize
        requires { Asked self.now stack.old whole plan.old at }
        ensures unfolds_spine { UnfoldsSpine self.now stack.old whole plan.old at plan.new result }
        ensures stays { Stays whole.base stack.old stack.new }
    {
        let left = self.open_record(plan, stack, whole, at);
        match left {
            Left::Nothing { next } => next,
            Left::SideFirst { beside, rest, next } => {
                let then = self.side(plan, stack, beside, rest.depth, next);
                self.spine(plan, stack, rest, then)
            }
            Left::SideLast { rest, beside, next } => {
                let then = self.spine(plan, stack, rest, next);
                self.side(plan, stack, beside, whole.base, then)
            }
        }
    }
}

// Where the item of the start over n words stands.
pub fn find_start(chart: &[u8], count: usize, n: usize) -> Option<usize>
    requires { 16 * count ≤ length chart.now }
    ensures { Found chart.now count n result }
{
    (0..count).rev().find(|m| is_start(chart, *m, n))
}

// Nonterminal 0 without a foot, from the first word to the n-th.
fn is_start(chart: &[u8], m: usize, n: usize) -> bool
    requires { 16 * m + 16 ≤ length chart.now }
    ensures { IsStart chart.now m n result }
{
    let at = RECORD * m;
    chart[at] == 0 && chart[at + 1] == 0 && chart[at + 2] == 0 && usize::from(chart[at + 3]) == n
}

// The plan of the item of the start over all words, which stands at position m.
pub fn unfold(card: Card, chart: &[u8], m: usize, plan: &mut [u8])
    requires { Unfoldable card.bytes.now chart.now m plan.old }
    ensures { Plans card.entry.bytes.now chart.now m plan.old plan.new }
{
    let source = Source { card, chart };
    let mut stack = [0u16; MOST_WORDS];
    source.side(plan, &mut stack, m, 0, 0);
}
