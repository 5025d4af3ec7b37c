// What the program takes in: the start of the card's file, and of standard input.
ghost use Rattle.std.specs.Prelude.{take};
ghost use Rattle.std.specs.Io.KnownBytes.{Consumes};
ghost use Rattle.lines.specs.Answer.{IsPrefixLen};

use std::fs;
use std::io::Read;
use std::rt::Files;

pub const MOST_CARD: usize = 4096;

pub const MOST_INPUT: usize = 60000;

// Reads until the buffer is full, the input ends or a read fails: how many bytes stand at the start of the buffer. They are the next ones of
// the reader, in order. (`read_exact` fails on an input shorter than the buffer, and does not say how much it read.)
// One loop with `write_full` it is not: `Read::read` fills a `&mut [u8]`, `Write::write` takes a `&[u8]`, and 0 is the end of an input but a
// text that is not taken. A closure for the difference would be longer than the loop, and its contract would say the streams' laws again.
pub fn read_full<R: Read>(from: &mut R, buf: &mut [u8]) -> usize
    ensures counts { IsPrefixLen result buf.new }
    ensures bytes { Consumes (R.remaining from.old) (R.remaining from.new) (take result buf.new) }
{
    let mut done = 0;
    while done < buf.len() {
        match from.read(&mut buf[done..]) {
            Ok(0) | Err(_) => break,
            Ok(n) => done += n,
        }
    }
    done
}

// The start of the file `card.lig`; no bytes where it cannot be opened.
pub fn load_card<F: Files>(rt: &F, card: &mut [u8]) -> usize
    ensures { IsPrefixLen result card.new }
{
    match fs::open(rt, "card.lig") {
        Ok(mut file) => read_full(&mut file, card),
        Err(_) => 0,
    }
}
