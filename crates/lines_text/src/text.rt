// The text of an answer, appended to a buffer: `at` is how many bytes of the buffer are in use, and each function answers how many
// are afterwards. A field takes at most 21 bytes: 20 digits, and the byte after them. Buffer and place stay two parameters: a struct that
// holds the buffer's `&mut` has every contract say that it is still the same buffer. `write!` into the buffer could fail, for all that its
// contract says, so the digits are `itoa`'s.
#![tactic(auto, using(crate::proofs::Decimal::short_fields))]

ghost use Rattle.std.specs.Prelude.{◌+◌, ◌*◌, ◌≤◌, length};
ghost use Rattle.lines_text.specs.Text.{Appends, field, step_line, step_lines, pair_line, pair_lines, read_line, refused_line};

// Bytes as they are.
pub fn put(out: &mut [u8], at: usize, text: &[u8]) -> usize
    requires { at + length text.now ≤ length out.old }
    ensures { Appends out.old at text.now out.new result }
{
    let end = at + text.len();
    out[at..end].copy_from_slice(text);
    end
}

// A number and the byte that ends its field.
fn put_field(out: &mut [u8], at: usize, n: u64, end: u8) -> usize
    requires { at + 21 ≤ length out.old }
    ensures { Appends out.old at (field n end) out.new result }
{
    let mut digits = itoa::Buffer::new();
    let after = put(out, at, digits.format(n).as_bytes());
    put(out, after, &[end])
}

// A refused line's number.
pub fn put_refused(out: &mut [u8], at: usize, number: u64) -> usize
    requires { at + 29 ≤ length out.old }
    ensures { Appends out.old at (refused_line number) out.new result }
{
    let after = put(out, at, b"refused ");
    put_field(out, after, number, b'\n')
}

// A line that is read: its words and items.
pub fn put_read(out: &mut [u8], at: usize, words: u64, items: u64) -> usize
    requires { at + 47 ≤ length out.old }
    ensures { Appends out.old at (read_line words items) out.new result }
{
    let after = put(out, at, b"read ");
    let after = put_field(out, after, words, b' ');
    put_field(out, after, items, b'\n')
}

// One step.
fn put_step(out: &mut [u8], at: usize, production: u8, i: u8, k: u8, j: u8) -> usize
    requires { at + 84 ≤ length out.old }
    ensures { Appends out.old at (step_line production i k j) out.new result }
{
    let after = put_field(out, at, u64::from(production), b' ');
    let after = put_field(out, after, u64::from(i), b' ');
    let after = put_field(out, after, u64::from(k), b' ');
    put_field(out, after, u64::from(j), b'\n')
}

// A line for each step of a plan, four bytes each. One function for this and `put_pairs` would be no plainer: they share the line with the
// `for` alone, and chunk, text and the room that the contract counts would be a closure with a contract of its own.
pub fn put_steps(out: &mut [u8], at: usize, plan: &[u8]) -> usize
    requires { at + 21 * length plan.now ≤ length out.old }
    ensures { Appends out.old at (step_lines plan.now) out.new result }
{
    let mut after = at;
    for step in plan.chunks_exact(4) {
        after = put_step(out, after, step[0], step[1], step[2], step[3]);
    }
    after
}

// One pair.
fn put_pair(out: &mut [u8], at: usize, given: u8, taken: u8) -> usize
    requires { at + 47 ≤ length out.old }
    ensures { Appends out.old at (pair_line given taken) out.new result }
{
    let after = put(out, at, b"pair ");
    let after = put_field(out, after, u64::from(given), b' ');
    put_field(out, after, u64::from(taken), b'\n')
}

// A line for each pair, two bytes each.
pub fn put_pairs(out: &mut [u8], at: usize, pairs: &[u8]) -> usize
    requires { at + 24 * length pairs.now ≤ length out.old }
    ensures { Appends out.old at (pair_lines pairs.now) out.new result }
{
    let mut after = at;
    for pair in pairs.chunks_exact(2) {
        after = put_pair(out, after, pair[0], pair[1]);
    }
    after
}
