// Productions that are alike: the same left side, action and dependent, and the side on the same hand of it.
ghost use Rattle.std.specs.Prelude.{◌≡◌, ◌<◌, true};
ghost use Rattle.layout.specs.Card.{production, production_count};
ghost use Rattle.sets.specs.Like.{Alike, LikeBefore};

use card::Card;

// By their bytes: kind, A and g, and of B and C the dependent, which is C where the side is first. Kind 0, a word's, is like none.
fn are_alike(card: Card, q: usize, p: usize) -> bool
    requires { (q < production_count card.bytes.now) × (p < production_count card.bytes.now) }
    ensures { result ≡ true → Alike (production card.entry.bytes.now q) (production card.entry.bytes.now p) }
{
    let a = card.production_at(q);
    let b = card.production_at(p);
    let bytes = card.bytes;
    let kind = bytes[a];
    let dependent = if kind & 1 == 1 { 3 } else { 2 };
    kind != 0
        && kind == bytes[b]
        && bytes[a + 1] == bytes[b + 1]
        && bytes[a + 4] == bytes[b + 4]
        && bytes[a + dependent] == bytes[b + dependent]
}

// Those of a set that stand before a production and are like it.
pub fn like_before(card: Card, set: u64, p: usize) -> u64
    requires { p < production_count card.bytes.now }
    ensures { LikeBefore card.entry.bytes.now p result }
{
    let mut like = 0u64;
    for q in bits::numbers(set) {
        if p <= q {
            return like;
        }
        if are_alike(card, q, p) {
            like |= 1u64 << q;
        }
    }
    like
}
