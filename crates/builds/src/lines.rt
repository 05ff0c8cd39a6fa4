// A line for each book that is built.
use builder::{BuildError, build};
use std::fmt;
use tables::Tables;
use tables::layout::SIZE;

// One byte more than the published size: it must stay as it is.
const MEMORY: usize = SIZE + 1;

// What the memory holds before.
const OLD: u8 = 0xAA;

// What the memory holds after a build.
#[derive(Drop)]
enum Held {
    Tables {
        states: usize,
        pieces: usize,
        phrases: usize,
    },
    Zero,
    AsItWas,
    SomethingElse,
}

// Whether the memory holds nothing but one value up to the published size.
fn holds_only(memory: &[u8; MEMORY], value: u8) -> bool {
    memory[..SIZE].iter().all(|byte| *byte == value)
}

impl From<&[u8; MEMORY]> for Held {
    fn from(memory: &[u8; MEMORY]) -> Held {
        if tables::passes(memory) {
            let tables = Tables::of(memory);
            return Held::Tables {
                states: tables.state_count(),
                pieces: tables.piece_count(),
                phrases: tables.phrase_count(),
            };
        }
        if holds_only(memory, 0) {
            return Held::Zero;
        }
        if holds_only(memory, OLD) {
            return Held::AsItWas;
        }
        Held::SomethingElse
    }
}

impl fmt::Display for Held {
    fn fmt<W: fmt::Write>(&self, f: &mut fmt::Formatter<W>) -> fmt::Result {
        match self {
            Held::Tables {
                states,
                pieces,
                phrases,
            } => write!(f, "{states} states, {pieces} pieces, {phrases} phrases"),
            Held::Zero => write!(f, "zero"),
            Held::AsItWas => write!(f, "as it was"),
            Held::SomethingElse => write!(f, "something else"),
        }
    }
}

fn report(rt: &impl Print, what: &str, answer: Result<usize, BuildError>, memory: &[u8; MEMORY]) {
    let number = builder::number(answer);
    let offset = builder::offset(answer);
    let held = Held::from(memory);
    let past = if memory[SIZE] == OLD { "kept" } else { "lost" };
    let _ = println!(rt;
        "{what}: build {number} at {offset}, {held}, the byte past the size {past}"
    );
}

// Builds the book into the first so many bytes of the memory, and writes the line.
pub(crate) fn line(rt: &impl Print, what: &str, book: &[u8], lent: usize) {
    let mut memory = [OLD; MEMORY];
    let Some(tables) = memory.get_mut(..lent) else {
        return;
    };
    let answer = build(book, tables);
    report(rt, what, answer, &memory);
}

// The same memory twice: the second book leaves nothing of the first.
pub(crate) fn again(rt: &impl Print, what: &str, first: &[u8], second: &[u8]) {
    let mut memory = [OLD; MEMORY];
    let _ = build(first, &mut memory);
    let answer = build(second, &mut memory);
    report(rt, what, answer, &memory);
}
