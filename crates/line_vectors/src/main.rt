// Prints what `accept` answers for stored lines over the tomato card, over cards with words spelled alike, and for cards that are
// refused: the number, the count of words and the set of the words at each of the 24 places. The file `stdout` was computed from the
// text of documents 01 and 02 by other means.
#![tactic(auto)]

mod sets;

use line::accept;
use places::{MOST_WORDS, Words};
use refusals::{Refusal, number};
use samples::TOMATO;
use std::io;

// Words that start alike, the last of 11 bytes; one production.
const ALIKE: [u8; 54] = *b"LIG1\x01\x03\0\x01\x0c\0\x30\0\
    \x01a\0\0\0\0\0\0\0\0\0\0\x02ab\0\0\0\0\0\0\0\0\0\x0babcdefghij0\0\0\0\0\0\0";

// The number, and the words, of which a refusal has none.
fn print(rt: &impl Print, r: Result<Words, Refusal>) -> io::Result<()> {
    let number = number(&r);
    let count = r.map_or(0, |words| words.count);
    let places = r.map_or([0; MOST_WORDS], |words| words.places);
    print!(rt; "{number} {count}")?;
    for place in places {
        print!(rt; " {place}")?;
    }
    println!(rt;)
}

// The lines of a text, each ended by hex 0A, over a card.
fn show_over(rt: &impl Print, card: &[u8], text: &[u8]) -> io::Result<()> {
    for line in split::lines(text) {
        print(rt, accept(card, line))?;
    }
    Ok(())
}

// Over the tomato card.
fn show(rt: &impl Print, text: &[u8]) -> io::Result<()> {
    show_over(rt, &TOMATO, text)
}

// No word, one and more, up to the limit; spaces at the ends, doubled and alone.
fn counts(rt: &impl Print) -> io::Result<()> {
    show(
        rt,
        b"\n\
        takes\n\
        coir takes mild\n\
        coir wool takes mild rich\n\
        coir wool takes mild rich coir wool takes mild rich coir wool takes mild rich coir wool takes mild rich coir wool takes mild\n\
        coir coir coir coir coir coir coir coir coir coir coir coir coir coir coir coir coir coir coir coir coir coir coir coir coir\n\
        \x20\n\
        \x20   \n\
        \x20 rich\n\
        rich  \n\
        \x20 coir   takes  mild \n",
    )
}

// Many spaces, and then one word.
fn spaces(rt: &impl Print) -> io::Result<()> {
    let mut line = [0x20u8; 4096];
    print(rt, accept(&TOMATO, &line))?;
    line[4095] = b'x';
    print(rt, accept(&TOMATO, &line))
}

// Bytes at the edges of what a line may hold.
fn bytes(rt: &impl Print) -> io::Result<()> {
    show(
        rt,
        b"coir\ttakes\n\
        coir\x00\n\
        \x1fcoir\n\
        coir\x21\n\
        coir/\n\
        coir:\n\
        `coir\n\
        {coir\n\
        coir\x7f\n\
        coir \xff\n\
        coir takes Mild\n\
        coir 0 9 a z\n",
    )
}

// Words that are not on the card.
fn words(rt: &impl Print) -> io::Result<()> {
    show(
        rt,
        b"coir gives mild\n\
        coi\n\
        coirs\n\
        oir\n\
        coir takez\n\
        abcdefghijkl\n\
        mild coirtakes\n",
    )
}

fn alike(rt: &impl Print) -> io::Result<()> {
    show_over(
        rt,
        &ALIKE,
        b"abcdefghij0 ab a ab\n\
        abc\n\
        abcdefghij\n\
        abcdefghij01\n\
        a b\n",
    )
}

// The number of each line of one byte, in one row.
fn every_byte(rt: &impl Print) -> io::Result<()> {
    for value in 0..=255u8 {
        let number = number(&accept(&TOMATO, &[value]));
        print!(rt; " {number}")?;
    }
    println!(rt;)
}

// Which of two refusals comes first.
fn order(rt: &impl Print) -> io::Result<()> {
    show(
        rt,
        b"gives M\n\
        \x20 \x00\n\
        a a a a a a a a a a a a a a a a a a a a a a a a a\n\
        coir coir coir coir coir coir coir coir coir coir coir coir coir coir coir coir coir coir coir coir coir coir coir coir gives\n\
        A a a a a a a a a a a a a a a a a a a a a a a a a\n",
    )
}

// Cards with one fault more each time, the last refusal of the six first; the line has a fault too. Two entries spelled alike are no
// fault.
fn cards(rt: &impl Print) -> io::Result<()> {
    let line = b"coir Takes";
    let mut card = TOMATO;
    print(rt, accept(b"", line))?;
    print(rt, accept(&card[..137], line))?;
    card[25] = b'c';
    card[27] = b'i';
    card[28] = b'r';
    print(rt, accept(&card, line))?;
    print(rt, accept(&card, b"coir takes mild"))?;
    print(rt, accept(&card, b"wool takes rich"))?;
    card[91] = 5;
    print(rt, accept(&card, line))?;
    card[72] = 7;
    print(rt, accept(&card, line))?;
    card[24] = 0;
    print(rt, accept(&card, line))?;
    card[8] = 13;
    print(rt, accept(&card, line))?;
    card[4] = 17;
    print(rt, accept(&card, line))?;
    card[3] = 50;
    print(rt, accept(&card, line))
}

fn main(rt: HostRuntime) -> io::Result<()> {
    counts(&rt)?;
    spaces(&rt)?;
    bytes(&rt)?;
    words(&rt)?;
    alike(&rt)?;
    every_byte(&rt)?;
    order(&rt)?;
    cards(&rt)?;
    sets::all(&rt)
}
