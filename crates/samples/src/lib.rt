// What the programs `*_vectors` share.
#![tactic(auto)]

// Document 01's tomato card: header, five words, five word productions, four that give and two that take.
pub const TOMATO: [u8; 138] = *b"LIG1\x06\x05\x02\x0b\x0c\0\x48\0\
    \x04coir\0\0\0\0\0\0\0\x04wool\0\0\0\0\0\0\0\x05takes\0\0\0\0\0\0\x04mild\0\0\0\0\0\0\0\x04rich\0\0\0\0\0\0\0\
    \0\x02\0\0\0\0\0\x03\x01\0\0\0\0\x01\x02\0\0\0\0\x04\x03\0\0\0\0\x05\x04\0\0\0\
    \x05\0\x02\0\x01\0\x05\0\x03\0\x02\0\x05\0\x02\x01\x01\0\x05\0\x03\x01\x02\0\
    \x02\x01\x01\x04\x01\0\x02\x01\x01\x05\x02\0";
