// Limits of a number.
ghost use Rattle.std.specs.Prelude.{◌≡◌};
ghost use Rattle.layout.specs.Card as layout;

pub fn within(low: usize, high: usize, x: usize) -> bool
    ensures { result ≡ layout.within low high x }
{
    low <= x && x <= high
}
