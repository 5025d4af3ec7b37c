// Refusal 42: the names of productions, as sets of numbers.
ghost use Rattle.std.specs.Prelude.{◌<◌, ◌≡◌};
ghost use Rattle.card.specs.Names.{NamesWith, is_live};

use crate::productions::Fields;
use bits::{is_part, with};

// Those on the left, and those on the right.
#[derive(Clone, Copy)]
pub struct Names {
    pub left: u32,
    pub right: u32,
}

impl Names {
    // With those of one more production. A word production counts on the left, and has no name on its right.
    pub fn with(self, f: Fields) -> Names
        requires { (f.a < 32) × ((f.kind ≡ 0 → ⊥) → (f.b < 32) × (f.c < 32)) }
        ensures { NamesWith self f.kind f.a f.b f.c result }
    {
        let left = with(self.left, usize::from(f.a));
        if f.kind == 0 {
            return Names { left, ..self };
        }
        let right = with(self.right, usize::from(f.b));
        Names {
            left,
            right: with(right, usize::from(f.c)),
        }
    }

    // Is every name on the right of a production on the left of one?
    pub fn live(self) -> bool
        ensures { result ≡ is_live self }
    {
        is_part(self.right, self.left)
    }
}
