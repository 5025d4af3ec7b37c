// Keep: what the records are made from that take over the feet of a cell of dependents.
ghost use Rattle.steps.specs.Candidates.{kept_origin};

use crate::each::Reach;
use crate::element::Side;
use records::record::{NOWHERE, Origin};

// From a dependent, with no continuation.
#[derive(Clone, Copy)]
pub struct Kept {
    pub side: Side,
}

impl Reach for Kept {
    ghost origin_at = { λ k y. kept_origin k.side y };

    fn origin(self, position: u16) -> Origin {
        Origin {
            production: self.side.production,
            side: self.side.position,
            dependent: position,
            continuation: NOWHERE,
        }
    }
}
