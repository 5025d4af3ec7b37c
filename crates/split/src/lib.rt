// The lines of an input, each ended by hex 0A, the last one with or without it.
#![tactic(auto)]

ghost use Rattle.std.specs.Prelude.{◌≡◌, ◌<◌, leb, length};
ghost use Rattle.std.specs.Iterator.{YieldsFirstRef, item_count};
ghost use Rattle.split.specs.Lines.{lines_of, LineEnds};
ghost use Rattle.split.specs.Left.{lines_left};

// Where the line that starts at a place ends: at the next hex 0A, or else at the end of the input.
pub fn line_end(input: &[u8], at: usize) -> usize
    requires { at < length input.now }
    ensures { LineEnds input.now at result }
{
    octets::past(input, at, |b| b != b'\n')
}

// The lines of what is left of an input.
#[derive(Drop)]
pub struct LinesLeft<'a> {
    pub rest: &'a [u8],
}

impl<'a> Iterator for LinesLeft<'a> {
    type Item = &'a [u8];

    ghost next_gives = { YieldsFirstRef lines_left };

    ghost remaining = { item_count lines_left };

    fn next(&mut self) -> Option<&'a [u8]> {
        let rest = self.rest;
        if rest.is_empty() {
            return None;
        }
        let end = line_end(rest, 0);
        self.rest = &rest[rest.len().min(end + 1)..];
        Some(&rest[..end])
    }
}

pub fn lines(input: &[u8]) -> LinesLeft<'_>
    ensures { lines_left result ≡ lines_of input.now }
{
    LinesLeft { rest: input }
}

// Has the input at most so many lines?
pub fn at_most(input: &[u8], most: usize) -> bool
    ensures { result ≡ leb (length (lines_of input.now)) most }
{
    lines(input).nth(most).is_none()
}
