// Entries that are spelled alike: the set at a place has every word with its spelling, and no other.
use crate::show_over;
use std::io;

// Words that start alike, some of them three times or twice; one production.
const STARTS: [u8; 126] = *b"LIG1\x01\x09\0\x01\x0c\0\x78\0\
    \x04mild\0\0\0\0\0\0\0\x03mil\0\0\0\0\0\0\0\0\x04mild\0\0\0\0\0\0\0\x06milder\0\0\0\0\0\x05mild2\0\0\0\0\0\0\x04mild\0\0\0\0\0\0\0\
    \x0babcdefghij0\x0babcdefghij1\x0babcdefghij0\
    \0\0\0\0\0\0";

fn starts(rt: &impl Print) -> io::Result<()> {
    show_over(
        rt,
        &STARTS,
        b"mild mil milder mild2\n\
        abcdefghij1 abcdefghij0 mild\n\
        mi\n\
        mild mildest\n\
        milde\n\
        abcdefghij\n\
        mild mild Mild\n",
    )
}

// A card with 32 words, each of one given letter, and one production.
fn letters(spelled: &[u8; 32]) -> [u8; 402] {
    let mut card = [0u8; 402];
    card[..12].copy_from_slice(b"LIG1\x01\x20\0\x01\x0c\0\x8c\x01");
    for (entry, letter) in card[12..396].chunks_exact_mut(12).zip(spelled) {
        entry[0] = 1;
        entry[1] = *letter;
    }
    card
}

// Lines over such a card.
fn over(rt: &impl Print, spelled: &[u8; 32], text: &[u8]) -> io::Result<()> {
    show_over(rt, &letters(spelled), text)
}

// Sets of 32, 31, 16 and 1.
fn many(rt: &impl Print) -> io::Result<()> {
    over(
        rt,
        b"mmmmmmmmmmmmmmmmmmmmmmmmmmmmmmmm",
        b"m\n\
        m m m m m m m m m m m m m m m m m m m m m m m m\n\
        m m m m m m m m m m m m m m m m m m m m m m m m m\n\
        mm\n\
        m n\n",
    )?;
    over(rt, b"nmmmmmmmmmmmmmmmmmmmmmmmmmmmmmmm", b"m n\n")?;
    over(rt, b"mmmmmmmmmmmmmmmmmmmmmmmmmmmmmmmn", b"m n\n")?;
    over(rt, b"aaaaaaaaaaaaaaaabbbbbbbbbbbbbbbb", b"a b a\n")?;
    over(rt, b"abababababababababababababababab", b"a b a\n")?;
    over(
        rt,
        b"abcdefghijklmnopqrstuvwxyz012345",
        b"a b c d e f g h i j k l m n o p q r s t u v w x\n\
        y z 0 1 2 3 4 5\n\
        6\n",
    )
}

// Two equal entries with others between: at the ends, next to them, and in the middle.
fn apart(rt: &impl Print) -> io::Result<()> {
    over(rt, b"zabcdefghijklmnopqrstuvwxy01234z", b"z a z 4\n")?;
    over(rt, b"azbcdefghijklmnopqrstuvwxy0123z4", b"z a z 4\n")?;
    over(rt, b"abcdefghijklmnozpqrstuvzwxy01234", b"z o w\n")
}

// 0 to 9 and p to y have the same low five bits, in this order: both on the card, either alone, and one at the ends.
fn low_bits(rt: &impl Print) -> io::Result<()> {
    over(
        rt,
        b"p0q1r2s3t4u5v6w7x8y9p0q1r2s3t4u5",
        b"p 0 q 1 r 2 s 3 t 4 u 5 v 6 w 7 x 8 y 9\na\n",
    )?;
    over(rt, b"pqrstuvwxypqrstuvwxypqrstuvwxypq", b"p y q\n0\np 9\n")?;
    over(rt, b"01234567890123456789012345678901", b"0 9 1\np\n0 y\n")?;
    over(rt, b"0pppppppppppppppppppppppppppppp0", b"0 p\n0 p q\n")
}

pub fn all(rt: &impl Print) -> io::Result<()> {
    starts(rt)?;
    many(rt)?;
    apart(rt)?;
    low_bits(rt)
}
