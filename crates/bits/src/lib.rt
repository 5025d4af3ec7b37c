// Sets of small numbers, as the bits of one number.
#![tactic(auto)]

ghost use Rattle.std.specs.Prelude.{◌≡◌, ◌<◌, ℕ};
ghost use Rattle.std.specs.Iterator.{at_most};
ghost use Rattle.bits.specs.Bits.{bit_of, holds_bit, with_number, is_part, Least, Without, TakesLeast};

// Is a number in a set of numbers below 32?
pub fn has(set: u32, b: u8) -> bool
    ensures { result ≡ holds_bit b set }
{
    b < 32 && set & (1u32 << b) != 0
}

// A set of numbers below 32 with one more.
pub fn with(set: u32, b: usize) -> u32
    requires { b < 32 }
    ensures { result ≡ with_number set b }
{
    set | (1u32 << b)
}

// Is every number of one set in the other?
pub fn is_part(part: u32, whole: u32) -> bool
    ensures { result ≡ is_part part whole }
{
    part & whole == part
}

// The least number of a set of numbers below 64 that is not empty.
pub fn least(set: u64) -> usize
    requires { set ≡ 0 → ⊥ }
    ensures { Least set result }
{
    // At most 63. There is no `From`, and `try_from` would test what is proved.
    u64::trailing_zeros(set) as usize
}

// The set without its least number: that is the lowest bit, and a number has all above it in common with the one before it.
pub fn without_least(set: u64) -> u64
    requires { set ≡ 0 → ⊥ }
    ensures { (k : ℕ) → Least set k → Without set k result }
{
    set & (set - 1)
}

// A walk over a set of numbers below 64, least first: those that are left.
#[derive(Drop)]
pub struct Members {
    pub rest: u64,
}

impl Iterator for Members {
    type Item = usize;

    ghost next_gives = { λ s r t. TakesLeast s.rest r t.rest };

    // A set without one of its numbers is less, as a number.
    ghost remaining = { λ s. at_most s.rest };

    fn next(&mut self) -> Option<usize> {
        if self.rest == 0 {
            return None;
        }
        let k = least(self.rest);
        self.rest = without_least(self.rest);
        Some(k)
    }
}

// The numbers of a set, least first.
pub fn numbers(set: u64) -> Members
    ensures { result.rest ≡ set }
{
    Members { rest: set }
}
