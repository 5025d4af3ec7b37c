// Name, number and part, for known and unknown words and for refused cards.
use crate::cards::{alike, largest, tomato, with};
use std::io;
use std::io::Write;

// A line: the length of the card, the word, the number, and the spelling.
fn name(rt: &impl Print, card: [u8; 1024], length: usize, word: usize) -> io::Result<()> {
    let Some(bytes) = card.get(..length) else {
        return Ok(());
    };
    let number = refusals::number(&card::find_name(bytes, word));
    print!(rt; "{length} {word} {number} [")?;
    io::writer(rt).write_all(card::name(bytes, word))?;
    println!(rt; "]")
}

pub fn all(rt: &impl Print) -> io::Result<()> {
    println!(rt; "names")?;
    name(rt, tomato(), 138, 0)?;
    name(rt, tomato(), 138, 1)?;
    name(rt, tomato(), 138, 2)?;
    name(rt, tomato(), 138, 4)?;
    name(rt, tomato(), 138, 5)?;
    name(rt, tomato(), 138, 256)?;
    name(rt, tomato(), 138, 18446744073709551615)?;
    name(rt, tomato(), 137, 0)?;
    name(rt, tomato(), 0, 0)?;
    name(rt, with(tomato(), 12, 0), 138, 0)?;
    name(rt, with(tomato(), 12, 0), 138, 5)?;
    name(rt, with(tomato(), 72, 7), 138, 1)?;
    name(rt, with(tomato(), 91, 5), 138, 1)?;
    name(rt, with(tomato(), 91, 5), 138, 5)?;
    name(rt, largest(), 780, 31)?;
    name(rt, largest(), 780, 32)?;
    name(rt, alike(), 780, 0)?;
    name(rt, alike(), 780, 31)?;
    name(rt, alike(), 780, 32)
}
