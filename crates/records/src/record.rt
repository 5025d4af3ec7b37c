// Records in the room: 16 bytes each, the last two of which hold the number of the foot while a chart is being built.
ghost use Rattle.std.specs.Prelude.{◌≡◌, ◌++◌, ◌+◌, ◌*◌, ◌≤◌, ◌<◌, length, take, drop};
ghost use Rattle.layout.specs.Bytes.{low_byte, high_byte};
ghost use Rattle.layout.specs.Line.{most_words};
ghost use Rattle.records.specs.Room.{foot_fields, record_from, Writable, with_number, number_there};

use crate::span::Span;

// The cell that is being filled: A over i to j; its number among the cells; and what bounds it: the line's words, the card's nonterminals,
// the items that the room holds, and the count of records at which the cell was begun. A, i and j are bytes, as each of its records has them, and
// no `Span`, of which every record would have to be narrowed.
#[derive(Clone, Copy)]
pub struct OpenCell {
    pub words: usize,
    pub symbols: usize,
    pub room: usize,
    pub base: usize,
    pub number: usize,
    pub left: u8,
    pub from: u8,
    pub to: u8,
}

impl OpenCell {
    // What it lies over.
    pub fn span(self) -> Span
        requires { (self.words ≤ most_words) × (self.from < self.to) × (self.to ≤ self.words) }
        ensures words { result.words ≡ self.words }
        ensures from { result.from ≡ self.from }
        ensures to { result.to ≡ self.to }
    {
        Span {
            words: self.words,
            from: usize::from(self.from),
            to: usize::from(self.to),
        }
    }
}

// γ, B, p and q of an item; index 0 where there is no foot. The four bytes of a record as they stand, which C reads too, so no variant.
#[derive(Clone, Copy)]
pub struct Foot {
    pub index: u8,
    pub symbol: u8,
    pub from: u8,
    pub to: u8,
}

// How an item was derived: its production and the positions of its antecedents, 65535 for none. They too are as a record has them.
#[derive(Clone, Copy)]
pub struct Origin {
    pub production: u8,
    pub side: u16,
    pub dependent: u16,
    pub continuation: u16,
}

pub const NOWHERE: u16 = 65535;

// The bytes of a record, and the power of 2 that they are.
pub const RECORD: usize = 16;

pub const RECORD_POWER: usize = 4;

// The foot of the record at position m.
pub fn foot_at(chart: &[u8], m: usize) -> Foot
    requires { 16 * m + 16 ≤ length chart.now }
    ensures { result ≡ foot_fields chart.now m }
{
    let at = RECORD * m;
    Foot {
        index: chart[at + 1],
        symbol: chart[at + 4],
        from: chart[at + 5],
        to: chart[at + 6],
    }
}

// The number of its foot.
pub fn number_at(chart: &[u8], m: usize) -> usize
    requires { 16 * m + 16 ≤ length chart.now }
    ensures { result ≡ number_there chart.now m }
{
    octets::read16(chart, RECORD * m + 14)
}

// The two bytes of 16 bits. Not by `to_le_bytes`, which divides: the archive has no division. To take eight bits is what `as` is for here.
fn low(x: u16) -> u8
    ensures { result ≡ low_byte x }
{
    (x & 255) as u8
}

fn high(x: u16) -> u8
    ensures { result ≡ high_byte x }
{
    (x >> 8) as u8
}

pub fn put_record(
    chart: &mut [u8],
    m: usize,
    cell: OpenCell,
    foot: Foot,
    number: u16,
    origin: Origin,
)
    requires { (16 * m + 16 ≤ length chart.old) × Writable foot }
    ensures { chart.new ≡ take (16 * m) chart.old ++ (with_number number (record_from cell foot origin)
        ++ drop (16 * m + 16) chart.old) }
{
    let bytes = [
        cell.left,
        foot.index,
        cell.from,
        cell.to,
        foot.symbol,
        foot.from,
        foot.to,
        origin.production,
        low(origin.side),
        high(origin.side),
        low(origin.dependent),
        high(origin.dependent),
        low(origin.continuation),
        high(origin.continuation),
        low(number),
        high(number),
    ];
    let at = RECORD * m;
    chart[at..at + RECORD].copy_from_slice(&bytes);
}
