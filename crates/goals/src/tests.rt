// A line of no words has no derivation: so no plan passes, whatever its steps.
use crate::replay::replay;
use card::Card;
use places::MOST_WORDS;

// One word, which its one production makes.
const CARD: [u8; 30] = *b"LIG1\x01\x01\0\x01\x0c\0\x18\0\x04coir\0\0\0\0\0\0\0\0\0\0\0\0\0";

#[test]
fn no_words_have_no_plan(rt: HostRuntime) {
    let Ok(card) = Card::check(&CARD) else {
        panic!(rt; "the card is refused");
    };
    // Every word stands at every place, past the last one too.
    let places = [u32::MAX; MOST_WORDS];
    assert!(rt; !replay(card, &places, 0, b""));
    for number in 0..=255u8 {
        assert!(rt; !replay(card, &places, 0, &[number, 0, 0, 0]));
        assert!(rt; !replay(card, &places, 0, &[number, 0, 1, 1]));
    }
    assert!(rt; replay(card, &places, 1, b"\0\0\x01\x01"));
    assert!(rt; !replay(card, &places, 1, b""));
}
