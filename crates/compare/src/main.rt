// Runs the scanner beside a second matcher, which is made straight from document 01's definitions, on books and letters by chance.
// It writes a line for each thing in which they differ, then what the books and letters held, and at last how much was compared.
#![tactic(auto)]

mod books;
mod calls;
mod chance;
mod due;
mod lines;
mod list;
mod matcher;
mod room;
mod same;
mod steps;
mod ways;

use books::Shape;
use calls::{Case, TABLES};
use chance::Chance;
use due::Due;
use lines::{Counts, Spot, add, compare};
use list::{Book, LETTER};
use ways::{Parts, Room, Way};

// So many books, each with a letter.
const CASES: u64 = 400;

const SEED: u64 = 7;

// What the table memory holds before.
const OLD: u8 = 0xAA;

// ── Shapes ──

const LONGEST: u16 = 32;

// Every eighth case is a far one. The others go from up to 8 phrases of up to 2 pieces to up to 2 phrases of up to 8 pieces.
const SHAPES: u64 = 8;

const ALPHABETS: u64 = 4;

fn shape_of(case: u64) -> Shape {
    let kind = (case % SHAPES) as u16;
    let alphabet = (case / SHAPES % ALPHABETS) as u8;
    if kind == 7 {
        return Shape {
            alphabet: 0,
            longest: LONGEST,
            phrases: 3,
            pieces: 2,
            far: true,
        };
    }
    Shape {
        alphabet,
        longest: kind % 4 + 2,
        phrases: 8 - kind,
        pieces: kind + 2,
        far: false,
    }
}

// ── The book ──

// The length of a book that is taken; none for one that is refused.
fn built(book: &[u8], tables: &mut [u8]) -> Option<usize> {
    builder::build(book, tables).ok()
}

// Every book here must be taken: a refused one stands in the line with length 0.
fn build_book(
    rt: &impl Print,
    counts: &mut Counts,
    case: u64,
    book: &Book,
    tables: &mut [u8; TABLES],
) {
    let sheet = book.written();
    let written = sheet.as_slice();
    let length = built(written, tables).unwrap_or(0);
    compare(
        rt,
        counts,
        Spot::before(case),
        "length of the book",
        written.len() as u64,
        length as u64,
    );
}

// ── Cases ──

// The larger room has up to so many numbers more than the least one; in every second case so many on top, so that one call mostly
// takes a short letter whole.
const MORE: u16 = 100;

const ALL: usize = 900;

fn drawn_more(chance: &mut Chance, case: u64) -> usize {
    let more = chance.draw_size(MORE);
    if case % 2 == 0 {
        return ALL + more;
    }
    more
}

fn all_ways(rt: &impl Print, counts: &mut Counts, case: &Case) {
    for room in [Room::Least, Room::Larger] {
        for parts in [Parts::Whole, Parts::Bytes, Parts::Two] {
            case.feed(rt, counts, Way { parts, room });
        }
    }
}

// A book, and a letter for it, fed in every way; none where there is no room for them or for what is due.
fn one_case(rt: &impl Print, counts: &mut Counts, chance: &mut Chance, number: u64) -> Option<()> {
    let shape = shape_of(number);
    let bytes = books::drawn_bytes(chance, shape.alphabet);
    let book = books::drawn_book(chance, shape, &bytes)?;
    let drawn = books::drawn_letter(chance, shape, &bytes);
    let letter = drawn.as_slice();
    let more = drawn_more(chance, number);
    let cut = chance.draw_size((letter.len() % LETTER + 1) as u16);
    let mut due = Due::default();
    due::find_due(counts, &book, letter, &mut due)?;
    let mut tables = [OLD; TABLES];
    build_book(rt, counts, number, &book, &mut tables);
    add(&mut counts.cases, 1);
    add(&mut counts.phrases, u64::from(book.phrases));
    add(&mut counts.pieces, book.pieces.len() as u64);
    add(&mut counts.bytes, letter.len() as u64);
    let case = Case {
        number,
        phrases: usize::from(book.phrases),
        tables: &tables,
        letter,
        due: &due,
        more,
        cut,
    };
    all_ways(rt, counts, &case);
    Some(())
}

// A line that can't be written is left out; the lines after it are written still.
fn main(rt: HostRuntime) {
    let mut counts = Counts::default();
    let mut chance = Chance(SEED);
    for number in 0..CASES {
        // what there is no room for is not compared, and counts as a difference
        let compared = one_case(&rt, &mut counts, &mut chance, number);
        if compared.is_none() {
            compare(&rt, &mut counts, Spot::before(number), "without room", 0, 1);
        }
    }
    lines::summary(&rt, &counts);
}
