// Prints what the card's functions answer for cards at the edges of document 01's layout, each made from the tomato card or the
// largest one by changing bytes. The file `stdout` was computed from the text of documents 01 and 02 by other means.
#![tactic(auto)]

mod cards;
mod names;
mod productions;

use card::Card;
use cards::{alike, largest, tomato, with};
use samples::TOMATO;
use std::io;

// A line: two bytes changed, place and value of each, the length, and the number; a length that the room does not have says so.
fn change(
    rt: &impl Print,
    card: [u8; 1024],
    at: usize,
    value: u8,
    other: usize,
    otherwise: u8,
    length: usize,
) -> io::Result<()> {
    let card = with(with(card, at, value), other, otherwise);
    let Some(bytes) = card.get(..length) else {
        return println!(rt; "no length {length}");
    };
    let number = refusals::number(&Card::check(bytes));
    println!(rt; "{at} {value} {other} {otherwise} {length} {number}")
}

// The numbers that a card gets with each value of one byte, as runs of values: first, last, number. The program `check_pairs_vectors` has such a
// loop over lengths: what only prints has no promise to make, and so is no public function for both.
fn runs(rt: &impl Print, card: [u8; 138], at: usize) -> io::Result<()> {
    let number = |value| refusals::number(&Card::check(&with(card, at, value)));
    let mut first = 0u8;
    let mut same = number(0);
    for last in 0..255u8 {
        let value = last + 1;
        let next = number(value);
        if next != same {
            print!(rt; " {first}-{last}:{same}")?;
            first = value;
            same = next;
        }
    }
    print!(rt; " {first}-255:{same}")
}

// A line for each byte of a stretch: its place, and the runs.
fn sweep(rt: &impl Print, card: [u8; 138], from: usize, to: usize) -> io::Result<()> {
    for at in from..to {
        print!(rt; "{at}")?;
        runs(rt, card, at)?;
        println!(rt;)?;
    }
    Ok(())
}

// The first bytes of the tomato card, up to its header.
fn first_bytes(rt: &impl Print) -> io::Result<()> {
    for length in 0..13 {
        change(rt, tomato(), 0, b'L', 0, b'L', length)?;
    }
    Ok(())
}

// Production 10 with a kind, and with the rest as that kind has it.
fn kind(rt: &impl Print, kind: u8, c: u8, g: u8) -> io::Result<()> {
    println!(rt; "kind {kind}")?;
    sweep(
        rt,
        with(with(with(TOMATO, 132, kind), 135, c), 136, g),
        132,
        138,
    )
}

fn kinds(rt: &impl Print) -> io::Result<()> {
    kind(rt, 0, 0, 0)?;
    kind(rt, 1, 5, 2)?;
    kind(rt, 2, 5, 2)?;
    kind(rt, 3, 5, 0)?;
    kind(rt, 4, 5, 0)?;
    kind(rt, 5, 5, 2)?;
    kind(rt, 6, 5, 2)?;
    kind(rt, 7, 5, 2)?;
    kind(rt, 255, 5, 2)
}

// Words may be spelled alike, and hide no other fault. The second word spelled as the first: alone, cut to "coi", with a byte after its
// end, and with another last letter.
fn equal_words(rt: &impl Print) -> io::Result<()> {
    println!(rt; "coir twice")?;
    let twice = with(with(with(tomato(), 25, b'c'), 27, b'i'), 28, b'r');
    change(rt, twice, 24, 4, 28, b'r', 138)?;
    change(rt, twice, 24, 3, 28, 0, 138)?;
    change(rt, twice, 24, 3, 28, b'r', 138)?;
    change(rt, twice, 24, 4, 29, 1, 138)?;
    change(rt, twice, 24, 4, 28, b'0', 138)?;
    // With a fault of 14 in the last entry, of 16 in the first production, and of both.
    change(rt, twice, 60, 12, 60, 12, 138)?;
    change(rt, twice, 77, 1, 77, 1, 138)?;
    change(rt, twice, 71, 1, 77, 1, 138)?;
    // The fifth word spelled as the second, up to its last letter and whole.
    println!(rt; "wool twice")?;
    let wool = with(with(tomato(), 61, b'w'), 62, b'o');
    change(rt, wool, 63, b'o', 64, b'h', 138)?;
    change(rt, wool, 63, b'o', 64, b'l', 138)?;
    // 32 words: alone, with a fault of 14 in the last entry, of 16 in the last production, and of both.
    println!(rt; "all alike")?;
    let same = alike();
    change(rt, same, 4, 16, 5, 32, 780)?;
    change(rt, same, 384, 0, 384, 0, 780)?;
    change(rt, same, 779, 1, 779, 1, 780)?;
    change(rt, same, 384, 12, 779, 1, 780)
}

// Several faults: the refusal that comes first in the document's order is given.
fn faults(rt: &impl Print) -> io::Result<()> {
    println!(rt; "faults")?;
    let card = tomato();
    change(rt, card, 12, 0, 72, 7, 138)?;
    change(rt, card, 71, 1, 72, 7, 138)?;
    change(rt, card, 8, 13, 12, 0, 138)?;
    change(rt, card, 72, 7, 72, 7, 137)?;
    change(rt, card, 4, 17, 10, 73, 138)?;
    change(rt, card, 6, 9, 12, 0, 138)?;
    change(rt, card, 3, b'2', 4, 0, 138)?;
    change(rt, card, 0, b'l', 0, b'l', 137)
}

// Names on the right of a production and on the left of none (document 02, Paper 4).
fn dead_names(rt: &impl Print) -> io::Result<()> {
    println!(rt; "dead names")?;
    // A seventh name that stands nowhere; on the left alone; then as production 10's side and dependent, production 5's, and as both.
    let seven = with(tomato(), 4, 7);
    change(rt, seven, 4, 7, 4, 7, 138)?;
    change(rt, seven, 133, 6, 133, 6, 138)?;
    change(rt, seven, 135, 6, 135, 6, 138)?;
    change(rt, seven, 134, 6, 134, 6, 138)?;
    change(rt, seven, 104, 6, 104, 6, 138)?;
    change(rt, seven, 105, 6, 105, 6, 138)?;
    change(rt, seven, 134, 6, 135, 6, 138)?;
    // On the right, and on the left: of a word production; of the production that has it on its right; of one that leads back to it alone,
    // so that no words come of it; and of one that has an eighth name, which is dead.
    let dead = with(seven, 135, 6);
    change(rt, dead, 97, 6, 97, 6, 138)?;
    change(rt, seven, 134, 6, 133, 6, 138)?;
    change(rt, dead, 127, 6, 128, 6, 138)?;
    change(rt, with(dead, 4, 8), 127, 6, 129, 7, 138)?;
    // R and M stand on the left of a word production alone: another name there.
    change(rt, tomato(), 73, 3, 73, 3, 138)?;
    change(rt, tomato(), 91, 5, 91, 5, 138)?;
    // Beside the other faults, which come first.
    change(rt, dead, 137, 1, 137, 1, 138)?;
    change(rt, dead, 71, 1, 71, 1, 138)?;
    change(rt, dead, 8, 13, 8, 13, 138)?;
    change(rt, dead, 4, 7, 4, 7, 137)?;
    change(rt, dead, 6, 9, 6, 9, 138)?;
    change(rt, dead, 3, b'2', 3, b'2', 138)
}

fn limits(rt: &impl Print) -> io::Result<()> {
    println!(rt; "largest")?;
    let card = largest();
    change(rt, card, 4, 16, 5, 32, 780)?;
    change(rt, card, 4, 16, 5, 32, 779)?;
    change(rt, card, 4, 16, 5, 32, 781)?;
    change(rt, card, 4, 17, 5, 32, 780)?;
    change(rt, card, 4, 15, 5, 32, 780)?;
    change(rt, card, 4, 16, 5, 33, 780)?;
    change(rt, card, 6, 9, 7, 64, 780)?;
    change(rt, card, 6, 7, 7, 64, 780)?;
    change(rt, card, 6, 8, 7, 65, 780)?;
    change(rt, card, 6, 8, 7, 63, 774)?;
    change(rt, card, 10, 140, 11, 0, 780)?;
    change(rt, card, 394, b'0', 395, b'0', 780)?;
    change(rt, card, 394, b'3', 395, b'A', 780)?;
    change(rt, card, 778, 0, 779, 1, 780)
}

fn main(rt: HostRuntime) -> io::Result<()> {
    first_bytes(&rt)?;
    change(&rt, tomato(), 0, b'L', 0, b'L', 137)?;
    change(&rt, tomato(), 0, b'L', 0, b'L', 138)?;
    change(&rt, tomato(), 0, b'L', 0, b'L', 139)?;
    sweep(&rt, TOMATO, 0, 138)?;
    kinds(&rt)?;
    equal_words(&rt)?;
    faults(&rt)?;
    dead_names(&rt)?;
    limits(&rt)?;
    names::all(&rt)?;
    productions::all(&rt)
}
