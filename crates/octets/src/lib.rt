// Bytes of a slice: read, also two at a time, and tests of all of them.
#![tactic(auto)]

ghost use Rattle.std.specs.Prelude.{◌≡◌, ◌<◌, ◌≤◌, ◌+◌, eqb, length};
ghost use Rattle.layout.specs.Bytes.{byte_at, number16_at, is_letter, same_bytes, all_bytes};
ghost use Rattle.octets.specs.Past.{Past};
ghost use Rattle.octets.specs.Letters.{Letters, AllLetters};

// The byte at a place, 0 past the end.
pub fn byte(s: &[u8], k: usize) -> u8
    ensures { result ≡ byte_at s.now k }
{
    s.get(k).copied().unwrap_or(0)
}

// The 16-bit number at a place, low byte first, as a number to count with: the library's reading and a widening, in one place.
pub fn read16(s: &[u8], at: usize) -> usize
    requires { at + 2 ≤ length s.now }
    ensures { (result ≡ number16_at s.now at) × (result < 65536) }
{
    usize::from(u16::from_le_bytes([s[at], s[at + 1]]))
}

// a to z and 0 to 9.
pub fn is_letter(b: u8) -> bool
    ensures { result ≡ is_letter b }
{
    matches!(b, b'a'..=b'z' | b'0'..=b'9')
}

// Past the bytes that fit, from `at` on. The loop is over places, since one is the answer.
pub fn past<F: Fn(u8) -> bool>(s: &[u8], at: usize, fits: F) -> usize
    requires { (at ≤ length s.now) × F.IsAlwaysCallable fits }
    ensures { Past (F.post fits) s.now at result }
{
    for k in at..s.len() {
        if !fits(s[k]) {
            return k;
        }
    }
    s.len()
}

// Past the letters a to z that stand at `at`. Most words are one such run, and this is one test for a byte where `is_letter` is two: a
// line and a card's spellings are gone over by it first.
pub fn past_small(s: &[u8], at: usize) -> usize
    requires { at ≤ length s.now }
    ensures { Letters s.now at result }
{
    past(s, at, |b| b.is_ascii_lowercase())
}

// Past the digits that stand at `at`.
fn past_digits(s: &[u8], at: usize) -> usize
    requires { at ≤ length s.now }
    ensures { Letters s.now at result }
{
    past(s, at, |b| b.is_ascii_digit())
}

// Past the letters that stand at `at`, a to z and 0 to 9: run by run, with one test for each byte of a run.
pub fn past_letters(s: &[u8], at: usize) -> usize
    requires { at ≤ length s.now }
    ensures { AllLetters s.now at result }
{
    let mut end = past_small(s, at);
    while end < s.len() && is_letter(s[end]) {
        end = past_small(s, past_digits(s, end + 1));
    }
    end
}

pub fn all_letters(s: &[u8]) -> bool
    ensures { result ≡ all_bytes is_letter s.now }
{
    past_letters(s, 0) == s.len()
}

// Here and below a `for`: the library's `all` and its `==` of slices go by groups, and divide for that; the archive has no division.
pub fn all_zero(s: &[u8]) -> bool
    ensures { result ≡ all_bytes (eqb 0) s.now }
{
    for b in s {
        if *b != 0 {
            return false;
        }
    }
    true
}

// Left at the first byte that differs.
pub fn same_bytes(a: &[u8], b: &[u8]) -> bool
    ensures { result ≡ same_bytes a.now b.now }
{
    if a.len() != b.len() {
        return false;
    }
    for i in 0..a.len() {
        if a[i] != b[i] {
            return false;
        }
    }
    true
}
