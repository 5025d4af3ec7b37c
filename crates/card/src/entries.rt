// Refusal 14: each word entry's layout.
ghost use Rattle.std.specs.Prelude.{◌≡◌, ◌≤◌, ◌<◌, ◌+◌, length};
ghost use Rattle.layout.specs.Card.{entry_length, entry_at, word_count, entry_fits, entries_fit};

use crate::Card;
use crate::header::View;
use crate::numbers::within;
use octets::{all_letters, all_zero};

impl View<'_> {
    fn entry_fits(self, v: usize) -> bool
        requires { (v < 256) × (entry_at self.bytes.now v + entry_length ≤ length self.bytes.now) }
        ensures { result ≡ entry_fits self.entry.bytes.now v }
    {
        let at = self.entry_at(v);
        let n = usize::from(self.bytes[at]);
        // One byte of the entry is the length itself.
        if !within(1, Card::ENTRY - 1, n) {
            return false;
        }
        let from = at + 1;
        let to = from + n;
        let end = at + Card::ENTRY;
        all_letters(&self.bytes[from..to]) && all_zero(&self.bytes[to..end])
    }

    // A `for` and no `all`, as in `octets`.
    pub fn entries_fit(self) -> bool
        requires { entry_at self.bytes.now (word_count self.bytes.now) ≤ length self.bytes.now }
        ensures { result ≡ entries_fit self.entry.bytes.now }
    {
        for v in 0..self.words {
            if !self.entry_fits(v) {
                return false;
            }
        }
        true
    }
}
