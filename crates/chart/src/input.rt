// What a chart is built of.
use card::Card;
use places::Words;

// An accepted card, and the words of a line.
#[derive(Clone, Copy)]
pub struct Input<'a> {
    pub card: Card<'a>,
    pub words: &'a Words,
}
