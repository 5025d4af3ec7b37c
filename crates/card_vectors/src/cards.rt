// The cards that the vectors are made of: each in a room of 1,024 bytes, zeros after its end.

// The header of the largest card: 16 nonterminals, 32 words, 8 indices and 64 productions.
const LARGEST: [u8; 12] = *b"LIG1\x10\x20\x08\x40\x0c\x00\x8c\x01";

// The card with one byte changed.
pub fn with<const N: usize>(card: [u8; N], at: usize, value: u8) -> [u8; N] {
    let mut changed = card;
    if let Some(byte) = changed.get_mut(at) {
        *byte = value;
    }
    changed
}

// Entry v: eleven letters and digits, the last two the entry's number.
fn entry(v: u8) -> [u8; 12] {
    let mut bytes = *b"\x0baaaaaaaaa00";
    bytes[10] += v / 10;
    bytes[11] += v % 10;
    bytes
}

// Production m: every kind in turn.
fn production(m: u8) -> [u8; 6] {
    let kind = m % 7;
    let name = m % 16;
    let dependent = match kind {
        0 => 0,
        _ => 15,
    };
    let index = match kind {
        0 | 3 | 4 => 0,
        _ => 1 + m % 8,
    };
    [kind, name, name, dependent, index, 0]
}

// The tomato card: 138 bytes.
pub fn tomato() -> [u8; 1024] {
    let mut card = [0u8; 1024];
    card[..138].copy_from_slice(&samples::TOMATO);
    card
}

// The largest card's 32 entries, and its 64 productions.
fn put_entries(table: &mut [u8]) {
    for (v, bytes) in (0..32u8).zip(table.chunks_exact_mut(12)) {
        bytes.copy_from_slice(&entry(v));
    }
}

fn put_productions(table: &mut [u8]) {
    for (m, bytes) in (0..64u8).zip(table.chunks_exact_mut(6)) {
        bytes.copy_from_slice(&production(m));
    }
}

// Every count at its limit: 780 bytes.
pub fn largest() -> [u8; 1024] {
    let mut card = [0u8; 1024];
    card[..12].copy_from_slice(&LARGEST);
    put_entries(&mut card[12..396]);
    put_productions(&mut card[396..780]);
    card
}

// The largest card with every word spelled as the first.
pub fn alike() -> [u8; 1024] {
    let mut card = largest();
    for bytes in card[24..396].chunks_exact_mut(12) {
        bytes.copy_from_slice(&entry(0));
    }
    card
}
