// Records in the lent room, its capacity, the marks of the feet that a cell has, the table of cells, the spans over which they stand, and adding
// an item (document 01, "The chart").
#![tactic(auto)]

pub mod add;
pub mod cells;
pub mod marks;
pub mod record;
pub mod room;
pub mod span;
