// Productions as the readers decode them: one of the count of an accepted card. For others the reason is printed.
use crate::cards::{tomato, with};
use card::{Action, Card, Production};
use std::io;

// Actions and productions are printed by functions: `Display` is for the crate of a type to implement, and crates of the archive print nothing.
fn act(rt: &impl Print, action: Action) -> io::Result<()> {
    match action {
        Action::Take(g) => print!(rt; " take {g}"),
        Action::Keep => print!(rt; " keep"),
        Action::Give(g) => print!(rt; " give {g}"),
    }
}

fn show(rt: &impl Print, production: Production) -> io::Result<()> {
    match production {
        Production::Word { left, word } => print!(rt; " word {left} {word}"),
        Production::SideFirst {
            left,
            action,
            side,
            dependent,
        } => {
            print!(rt; " side first {left}")?;
            act(rt, action)?;
            print!(rt; " {side} {dependent}")
        }
        Production::SideLast {
            left,
            action,
            dependent,
            side,
        } => {
            print!(rt; " side last {left}")?;
            act(rt, action)?;
            print!(rt; " {dependent} {side}")
        }
    }
}

// Production m, if the card is accepted and has so many.
fn decoded(rt: &impl Print, bytes: &[u8], m: usize) -> io::Result<()> {
    let card = match Card::check(bytes) {
        Ok(card) => card,
        Err(refusal) => {
            let number = u64::from(refusal);
            return print!(rt; " refused {number}");
        }
    };
    if card.productions() <= m {
        return print!(rt; " none");
    }
    show(rt, card.production(m))
}

fn production(rt: &impl Print, card: [u8; 1024], length: usize, m: u8) -> io::Result<()> {
    let Some(bytes) = card.get(..length) else {
        return Ok(());
    };
    print!(rt; "{m}")?;
    decoded(rt, bytes, usize::from(m))?;
    println!(rt;)
}

// Production 10 of the tomato card with another kind and index.
fn kind(rt: &impl Print, kind: u8, index: u8) -> io::Result<()> {
    production(rt, with(with(tomato(), 132, kind), 136, index), 138, 10)
}

pub fn all(rt: &impl Print) -> io::Result<()> {
    println!(rt; "productions")?;
    for m in 0..13u8 {
        production(rt, tomato(), 138, m)?;
        kind(rt, m, 2)?;
        kind(rt, m, 0)?;
    }
    kind(rt, 255, 2)?;
    production(rt, tomato(), 138, 255)?;
    production(rt, tomato(), 135, 10)?;
    production(rt, tomato(), 5, 0)?;
    production(rt, tomato(), 0, 0)?;
    production(rt, with(tomato(), 5, 255), 138, 255)?;
    production(rt, with(tomato(), 91, 5), 138, 3)
}
