// The two elements of a production that meet at a split of a cell, and what is known of a step once its side is found.
ghost use Rattle.std.specs.Prelude.{◌≡◌, ◌*◌, ◌≤◌, ◌<◌};
ghost use Rattle.layout.specs.Card.{max_nonterminals};
ghost use Rattle.records.specs.Cells.{spans, cell_at};

use card::Action;
use records::record::OpenCell;
use records::span::Span;

// A nonterminal over a part of the cell's span: a side or a dependent.
#[derive(Clone, Copy)]
pub struct Element {
    pub symbol: u8,
    pub span: Span,
}

impl Element {
    // A nonterminal of a production, over a part.
    pub fn over(span: Span, symbol: u8) -> Element
        ensures symbol { result.symbol ≡ symbol }
        ensures span { result.span ≡ span }
    {
        Element { symbol, span }
    }

    // The number of its own cell in the table; the open cell tells how many nonterminals each span has. That they are few is asked, as at `Sizes` of
    // chart.
    pub fn number(self, cell: OpenCell) -> usize
        requires { (cell.symbols ≤ max_nonterminals) × (self.symbol < cell.symbols) }
        ensures at { result ≡ cell_at cell.symbols self.symbol self.span.from self.span.to }
        ensures below { result < spans self.span.words * cell.symbols }
    {
        self.span.cell(cell.symbols, usize::from(self.symbol))
    }
}

// Those of a production, and its action.
#[derive(Clone, Copy)]
pub struct Elements {
    pub side: Element,
    pub action: Action,
    pub dependent: Element,
}

// The production of a step, and the position of its side.
#[derive(Clone, Copy)]
pub struct Side {
    pub production: u8,
    pub position: u16,
}
