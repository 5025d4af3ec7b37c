// Prints what Check and Pairs answer for stored plans, for the same plans with a byte changed, cut off and added to, and for refused
// inputs. The file `stdout` was computed from the document's text by other means.
#![tactic(auto)]

mod vectors;

use std::io;

// A plan of a line under a card, or what is given for one.
#[derive(Clone, Copy)]
struct Case<'a> {
    card: &'a [u8],
    line: &'a [u8],
    plan: &'a [u8],
}

// The plan and then zeros.
fn filled(plan: &[u8]) -> [u8; 256] {
    let mut bytes = [0u8; 256];
    let length = plan.len().min(256);
    bytes[..length].copy_from_slice(&plan[..length]);
    bytes
}

impl<'a> Case<'a> {
    fn with_card(self, card: &'a [u8]) -> Case<'a> {
        Case { card, ..self }
    }

    fn with_line(self, line: &'a [u8]) -> Case<'a> {
        Case { line, ..self }
    }

    // Check's number for these bytes in the plan's stead.
    fn number(&self, plan: &[u8]) -> u64 {
        refusals::number(&check_pairs::check(self.card, self.line, plan))
    }

    // Does the plan pass with the byte at a place set?
    fn passes(&self, at: usize, value: u8) -> bool {
        let length = self.plan.len();
        if 256 < length || length <= at {
            return false;
        }
        let mut bytes = filled(self.plan);
        bytes[at] = value;
        self.number(&bytes[..length]) == 0
    }

    // How many plans pass that have one byte set to a value that is tried at it, as a test of byte and value says. (The sum wraps, so that
    // nothing has to be known of how many bytes there are.)
    fn passing<F: Fn(u8, u8) -> bool>(&self, is_tried: F) -> usize
        requires { F.IsAlwaysCallable is_tried }
    {
        let mut sum = 0usize;
        for (at, byte) in self.plan.iter().enumerate() {
            let values = (0..=255u8).filter(|value| is_tried(*byte, *value));
            sum = sum.wrapping_add(values.filter(|value| self.passes(at, *value)).count());
        }
        sum
    }

    // Each byte one more, 0 and 255: how many of these plans pass.
    fn three_changes(&self, rt: &impl Print) -> io::Result<()> {
        let sum = self.passing(|byte, value| {
            value == byte.wrapping_add(1) || value == 0 || value == 255
        });
        println!(rt; "one more, 0 or 255: {sum}")
    }

    // Each byte at every value: how many of these plans pass.
    fn all_values(&self, rt: &impl Print) -> io::Result<()> {
        let sum = self.passing(|_, _| true);
        println!(rt; "any value: {sum}")
    }

    // The numbers of the first 0 to 200 bytes of the plan with zeros after it, as runs of lengths. (As `runs` of `card_vectors`, for the reason
    // there.)
    fn lengths(&self, rt: &impl Print) -> io::Result<()> {
        let bytes = filled(self.plan);
        let mut first = 0;
        let mut same = self.number(b"");
        print!(rt; "lengths")?;
        for last in 0..200usize {
            let length = last + 1;
            let found = self.number(&bytes[..length]);
            if found != same {
                print!(rt; " {first}-{last}:{same}")?;
                first = length;
                same = found;
            }
        }
        println!(rt; " {first}-200:{same}")
    }

    // Pairs in the first bytes of a room that is filled with 170: the number and the count, and then all of the room.
    fn room(&self, rt: &impl Print, size: usize) -> io::Result<()> {
        let mut room = [170u8; 24];
        if 24 < size {
            return Ok(());
        }
        let answer = check_pairs::pairs(self.card, self.line, self.plan, &mut room[..size]);
        let number = refusals::number(&answer);
        let count = answer.unwrap_or(0);
        print!(rt; "room {size}: {number} {count};")?;
        for byte in room {
            print!(rt; " {byte}")?;
        }
        println!(rt;)
    }

    // The label, and the number for the plan as it is.
    fn check(&self, rt: &impl Print, label: &str) -> io::Result<()> {
        println!(rt; "{label}")?;
        let number = self.number(self.plan);
        println!(rt; "check {number}")
    }

    // All of it; the pairs are `size` bytes.
    fn every(&self, rt: &impl Print, label: &str, size: usize) -> io::Result<()> {
        self.check(rt, label)?;
        self.room(rt, 0)?;
        self.room(rt, size.saturating_sub(1))?;
        self.room(rt, size)?;
        self.room(rt, 24)?;
        self.three_changes(rt)?;
        self.all_values(rt)?;
        self.lengths(rt)
    }

    // A refusal of Check is Pairs', whatever the room.
    fn refused(&self, rt: &impl Print, label: &str) -> io::Result<()> {
        self.check(rt, label)?;
        self.room(rt, 0)?;
        self.room(rt, 24)
    }
}

// Refused each for one thing.
fn refusals(rt: &impl Print) -> io::Result<()> {
    let case = Case {
        card: &samples::TOMATO,
        line: b"coir takes mild",
        plan: &vectors::PLAN_ONE,
    };
    let mut mark = samples::TOMATO;
    mark[0] = b'l';
    case.with_card(&mark).refused(rt, "another mark")?;
    case.with_card(b"").refused(rt, "no card")?;
    case.with_line(b"").refused(rt, "no line")?;
    case.with_line(b"coir takes Mild").refused(rt, "a capital")?;
    case.with_line(b"coir gives mild")
        .refused(rt, "an unknown word")?;
    case.with_line(
        b"coir coir coir coir coir coir coir coir coir coir coir coir coir coir coir coir coir coir coir coir coir coir coir coir coir",
    ).refused(rt, "25 words")?;
    case.with_line(b"coir takes rich")
        .refused(rt, "another line")?;
    let mirrored = Case {
        line: b"coir wool takes rich mild",
        plan: &vectors::PLAN_TWO,
        ..case
    };
    mirrored.refused(rt, "mirrored")?;
    let no_plan = Case {
        line: b"takes",
        plan: b"",
        ..case
    };
    no_plan.refused(rt, "no plan")
}

// Document 01's lines.
fn tomato(rt: &impl Print) -> io::Result<()> {
    let one = Case {
        card: &samples::TOMATO,
        line: b"coir takes mild",
        plan: &vectors::PLAN_ONE,
    };
    one.every(rt, "coir takes mild", 2)?;
    let two = Case {
        line: b"coir wool takes mild rich",
        plan: &vectors::PLAN_TWO,
        ..one
    };
    two.every(rt, "coir wool takes mild rich", 4)?;
    let four = Case {
        line: b"coir coir takes mild mild",
        plan: &vectors::PLAN_FOUR,
        ..one
    };
    four.every(rt, "coir coir takes mild mild", 4)
}

fn kinds(rt: &impl Print) -> io::Result<()> {
    let case = Case {
        card: &vectors::KINDS,
        line: &vectors::KINDS_LINE,
        plan: &vectors::KINDS_PLAN,
    };
    case.every(rt, "every kind", 18)
}

// Sides of several words: a pair has the last word of each.
fn rows(rt: &impl Print) -> io::Result<()> {
    let one = Case {
        card: &vectors::ROWS,
        line: b"coir 14 takes extra mild",
        plan: &vectors::ROWS_ONE,
    };
    one.every(rt, "coir 14 takes extra mild", 2)?;
    let two = Case {
        line: b"coir 14 wool 15 takes extra mild rich",
        plan: &vectors::ROWS_TWO,
        ..one
    };
    two.every(rt, "coir 14 wool 15 takes extra mild rich", 4)
}

// The second word spelled as the first, and made by the same nonterminal: the word step for "coir" may name either production. The
// nonterminal that made it goes from the right sides too, where it would be a dead name.
fn alike(rt: &impl Print) -> io::Result<()> {
    let mut card = samples::TOMATO;
    card[25] = b'c';
    card[27] = b'i';
    card[28] = b'r';
    card[79] = 2;
    card[110] = 2;
    card[122] = 2;
    let case = Case {
        card: &card,
        line: b"coir takes mild",
        plan: &vectors::PLAN_ONE,
    };
    case.every(rt, "two words spelled alike", 2)
}

fn main(rt: HostRuntime) -> io::Result<()> {
    tomato(&rt)?;
    kinds(&rt)?;
    rows(&rt)?;
    alike(&rt)?;
    refusals(&rt)
}
