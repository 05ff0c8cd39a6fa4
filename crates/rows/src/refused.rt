// A refused build, and then begin and feed on the tables that it left. All lent memory holds old bytes before, so that a change shows.
use crate::{Book, ROOM, RUNNING, TABLES, pair};
use scanner::{FeedError, MemoryError, Took};
use std::fmt;

// What the memories and the room hold before the calls.
const OLD: u8 = 0xAA;

const OLD_NUMBER: u32 = 0xAA;

// Document 01's numbers of the refusals above 2.
// Kept, no plainer: they are shown as numbers; where else they stand in code is the desk's library, which is C's and on which no program here stands.
const NO_ROOM: u64 = 10;

const TOO_LONG: u64 = 11;

const NOT_PASSED: u64 = 12;

// How many of the values are other than this one.
fn others<T: Copy + PartialEq>(values: &[T], old: T) -> usize {
    values.iter().filter(|value| **value != old).count()
}

fn memory_number(why: MemoryError) -> u64 {
    match why {
        MemoryError::TooSmall => 1,
        MemoryError::NotPassed => NOT_PASSED,
    }
}

fn begin_number(answer: Result<(), MemoryError>) -> u64 {
    match answer {
        Ok(()) => 0,
        Err(why) => memory_number(why),
    }
}

// What feed says, with document 01's number.
#[derive(Drop, Default)]
struct Said {
    refusal: u64,
    taken: usize,
    reports: usize,
    steps: u64,
}

fn refusal(number: u64) -> Said {
    Said {
        refusal: number,
        ..Said::default()
    }
}

impl From<Result<Took, FeedError>> for Said {
    fn from(answer: Result<Took, FeedError>) -> Said {
        match answer {
            Ok(took) => Said {
                refusal: 0,
                taken: took.taken,
                reports: took.reports,
                steps: took.steps,
            },
            Err(FeedError::Memory(why)) => refusal(memory_number(why)),
            Err(FeedError::NoRoom) => refusal(NO_ROOM),
            Err(FeedError::TooLong) => refusal(TOO_LONG),
        }
    }
}

impl fmt::Display for Said {
    fn fmt<W: fmt::Write>(&self, f: &mut fmt::Formatter<W>) -> fmt::Result {
        let refusal = self.refusal;
        let taken = self.taken;
        let reports = self.reports;
        let steps = self.steps;
        write!(f, "{refusal} taken {taken} reports {reports} steps {steps}")
    }
}

// The line: build's number and offset and how many bytes of the tables it left other than zero; then begin and feed, each with what it says and
// how much of the running memory and the room is other than before. The book is document 01's example with least 9 and most 1: refused
// with 5 at the second gap, which stands at 13.
pub(crate) fn refused_build(rt: &impl Print) {
    let mut book = Book::new();
    book.header(1);
    pair(&mut book, 7, b"not", 9, 1, b"print");
    book.end(1);
    let mut tables = [OLD; TABLES];
    let mut running = [OLD; RUNNING];
    let mut room = [OLD_NUMBER; ROOM];
    let answer = builder::build(book.as_slice(), &mut tables);
    let number = builder::number(answer);
    let at = builder::offset(answer);
    let filled = others(&tables, 0);
    let _ = print!(rt; "refused build: build {number} at {at} not zero {filled}");
    let begun = begin_number(scanner::begin(&tables, &mut running));
    let written = others(&running, OLD);
    let _ = print!(rt; ", begin {begun} changed {written}");
    let said = Said::from(scanner::feed(&tables, &mut running, b"do not ever print", &mut room));
    let changed = others(&running, OLD).wrapping_add(others(&room, OLD_NUMBER));
    let _ = println!(rt; ", feed {said} changed {changed}");
}
