// What the program hands out: text, to one writer.
ghost use Rattle.std.specs.Prelude.{◌≤◌, length, take};
ghost use Rattle.std.specs.Io.KnownBytes.{Appends};

use std::io::Write;

// Writes all of the text, or stops at the first write that takes nothing or fails: how many bytes the writer took. They are the first ones of
// the text, in order. (`write_all` does not say how much was written before a write that failed.)
// Why this is no one loop with `read_full`: see there.
pub fn write_full<W: Write>(to: &mut W, text: &[u8]) -> usize
    ensures counts { result ≤ length text.now }
    ensures bytes { Appends (W.contents to.old) (W.contents to.new) (take result text.now) }
{
    let mut done = 0;
    while done < text.len() {
        match to.write(&text[done..]) {
            Ok(0) | Err(_) => break,
            Ok(n) => done += n,
        }
    }
    done
}
