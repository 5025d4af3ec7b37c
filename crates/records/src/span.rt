// A stretch of a line's words, from one bound to a later one: the spans over which there are cells.
ghost use Rattle.std.specs.Prelude.{◌≡◌, ◌*◌, ◌≤◌, ◌<◌};
ghost use Rattle.layout.specs.Card.{max_nonterminals};
ghost use Rattle.records.specs.Cells.{spans, span_at, cell_at};

#[derive(Clone, Copy)]
pub struct Span {
    // How many words the line has.
    pub words: usize,
    pub from: usize,
    pub to: usize,
    pub ghost few: { words ≤ 24 },
    pub ghost some: { from < to },
    pub ghost inside: { to ≤ words },
}

impl Span {
    // Its place among the spans of the line.
    pub fn number(self) -> usize
        ensures at { result ≡ span_at self.from self.to }
        ensures below { result < spans self.words }
    {
        ((self.to * (self.to - 1)) >> 1) + self.from
    }

    // The place of the cell of a nonterminal over it, where each span has so many of them. That they are few is asked and no ghost field, as at
    // `Sizes` of chart.
    pub fn cell(self, symbols: usize, a: usize) -> usize
        requires { (symbols ≤ max_nonterminals) × (a < symbols) }
        ensures at { result ≡ cell_at symbols a self.from self.to }
        ensures below { result < spans self.words * symbols }
    {
        self.number() * symbols + a
    }

    // The part before a bound inside it, and the part after.
    pub fn before(self, k: usize) -> Span
        requires { (self.from < k) × (k < self.to) }
        ensures words { result.words ≡ self.words }
        ensures from { result.from ≡ self.from }
        ensures to { result.to ≡ k }
    {
        Span {
            words: self.words,
            from: self.from,
            to: k,
        }
    }

    pub fn after(self, k: usize) -> Span
        requires { (self.from < k) × (k < self.to) }
        ensures words { result.words ≡ self.words }
        ensures from { result.from ≡ k }
        ensures to { result.to ≡ self.to }
    {
        Span {
            words: self.words,
            from: k,
            to: self.to,
        }
    }
}
