// Refusals 16 and 42: each production by the table of kinds, and the names on their two sides; and what the six bytes mean.
ghost use Rattle.std.specs.Prelude.{true, ◌≡◌, ◌≤◌, ◌+◌, length};
ghost use Rattle.layout.specs.Card.{production_length, card_length, rule_of};
ghost use Rattle.layout.specs.Card.{counts_fit, word_production_fits, index_fits, pair_fits, kind_fits};
ghost use Rattle.card.specs.Names.{NamesChecked};
ghost use Rattle.card.specs.Productions.{rule_from, FieldsAt, fields_fit};

use crate::header::View;
use crate::names::Names;
use crate::numbers::within;
use crate::{Action, Production};
use refusals::Refusal;

// The six bytes of a production. The kind is one of them, tested by document 01's table; what it is decoded to is an enum.
#[derive(Clone, Copy)]
pub struct Fields {
    pub kind: u8,
    pub a: u8,
    pub b: u8,
    pub c: u8,
    pub g: u8,
    pub last: u8,
}

impl Fields {
    pub fn at(card: &[u8], at: usize) -> Fields
        requires { at + production_length ≤ length card.now }
        ensures { FieldsAt card.now at result }
    {
        Fields {
            kind: card[at],
            a: card[at + 1],
            b: card[at + 2],
            c: card[at + 3],
            g: card[at + 4],
            last: card[at + 5],
        }
    }

    // The table of kinds; any kind above 5 reads as 6.
    pub fn production(self) -> Production
        ensures { rule_from result ≡ rule_of self.kind self.a self.b self.c self.g }
    {
        let Fields {
            kind,
            a: left,
            b,
            c,
            g,
            ..
        } = self;
        if kind == 0 {
            return Production::Word { left, word: b };
        }
        let action = match kind {
            1 | 2 => Action::Take(g),
            3 | 4 => Action::Keep,
            _ => Action::Give(g),
        };
        // Of kinds 1, 3 and 5 the side is B and comes first.
        if kind <= 5 && kind & 1 == 1 {
            return Production::SideFirst {
                left,
                action,
                side: b,
                dependent: c,
            };
        }
        Production::SideLast {
            left,
            action,
            dependent: b,
            side: c,
        }
    }
}

impl View<'_> {
    fn word_production_fits(self, f: Fields) -> bool
        ensures { result ≡ word_production_fits self.entry.bytes.now f.a f.b f.c f.g }
    {
        usize::from(f.a) < self.nonterminals
            && usize::from(f.b) < self.words
            && f.c == 0
            && f.g == 0
    }

    // An index where one is due; kinds 3 and 4 keep the stack and have none.
    fn index_fits(self, f: Fields) -> bool
        ensures { result ≡ index_fits self.entry.bytes.now f.kind f.g }
    {
        if within(3, 4, usize::from(f.kind)) {
            return f.g == 0;
        }
        within(1, self.indices, usize::from(f.g))
    }

    // The three names of a pair; its index is asked by itself.
    fn pair_fits(self, f: Fields) -> bool
        ensures { result ≡ pair_fits self.entry.bytes.now f.a f.b f.c true }
    {
        let count = self.nonterminals;
        usize::from(f.a) < count && usize::from(f.b) < count && usize::from(f.c) < count
    }

    fn kind_fits(self, f: Fields) -> bool
        ensures { result ≡ kind_fits self.entry.bytes.now f.kind f.a f.b f.c f.g }
    {
        if 6 < f.kind {
            return false;
        }
        if f.kind == 0 {
            return self.word_production_fits(f);
        }
        self.pair_fits(f) && self.index_fits(f)
    }

    fn production_fits(self, f: Fields) -> bool
        ensures { result ≡ fields_fit self.entry.bytes.now f }
    {
        f.last == 0 && self.kind_fits(f)
    }
}

// The names of all productions, if each of them fits.
pub fn check(view: View) -> Result<Names, Refusal>
    requires { (counts_fit view.bytes.now ≡ true) × (card_length view.bytes.now ≤ length view.bytes.now) }
    ensures { NamesChecked view.entry.bytes.now result }
{
    let mut names = Names { left: 0, right: 0 };
    for m in 0..view.productions {
        let f = Fields::at(view.bytes, view.production_at(m));
        if !view.production_fits(f) {
            return Err(Refusal::Production);
        }
        names = names.with(f);
    }
    Ok(names)
}
