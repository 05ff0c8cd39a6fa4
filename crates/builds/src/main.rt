// Builds the largest books, and refused ones, into memory that holds old bytes, and writes a line for each: what is tried, build's
// number and offset, what the memory holds then, and whether the byte past the published size is as it was.
#![tactic(auto)]

mod lines;

use lines::{again, line};
use sheet::{EXAMPLE, Sheet};
use tables::layout::SIZE;

// ── The books ──

// Room for the longest of them.
type Book = Sheet<12288>;

const LONGEST_KEYWORD: usize = 32;

// How many values a byte has.
const BYTES: u16 = 256;

// Where the bounds of the example's second gap stand.
const LEAST_AT: usize = 15;

const MOST_AT: usize = 17;

const NINE: u8 = 9;

// The length of the example's first records.
const SHORT: usize = 9;

// A book of so many pieces, so many to a phrase, each with a keyword of so many bytes; the second bytes of the keywords differ, or
// all keywords are alike. The end record says so many phrases.
#[derive(Clone, Copy)]
struct Shape {
    pieces: u16,
    each: u16,
    length: usize,
    differ: bool,
    phrases: u16,
}

impl Shape {
    // The second byte of piece n's keyword.
    fn second(self, n: u16) -> u8 {
        if self.differ { (n % BYTES) as u8 } else { b'b' }
    }

    // Piece n, behind a phrase record where it begins a phrase. Its keyword is a, the second byte, and then x.
    fn write_piece(self, book: &mut Book, n: u16) {
        if n.checked_rem(self.each) == Some(0) {
            book.phrase(n.wrapping_add(1), 1);
        }
        book.open(0);
        let mut letters = [b'x'; LONGEST_KEYWORD];
        letters[0] = b'a';
        letters[1] = self.second(n);
        if let Some(word) = letters.get(..self.length) {
            book.keyword(word);
        }
    }

    // A book of this shape.
    fn write(self, book: &mut Book) {
        book.header(1);
        for n in 0..self.pieces {
            self.write_piece(book, n);
        }
        book.end(self.phrases);
    }
}

// ── The cases ──

fn shaped(rt: &impl Print, what: &str, shape: Shape) {
    let mut book = Book::new();
    shape.write(&mut book);
    line(rt, what, book.as_slice(), SIZE);
}

fn largest(rt: &impl Print) {
    shaped(
        rt,
        "128 phrases",
        Shape {
            pieces: 128,
            each: 1,
            length: 1,
            differ: false,
            phrases: 128,
        },
    );
    shaped(
        rt,
        "256 pieces",
        Shape {
            pieces: 256,
            each: 8,
            length: 1,
            differ: false,
            phrases: 32,
        },
    );
    shaped(
        rt,
        "128 phrases of 2 long pieces",
        Shape {
            pieces: 256,
            each: 2,
            length: 32,
            differ: false,
            phrases: 128,
        },
    );
    shaped(
        rt,
        "2047 prefixes",
        Shape {
            pieces: 66,
            each: 8,
            length: 32,
            differ: true,
            phrases: 9,
        },
    );
}

fn too_large(rt: &impl Print) {
    shaped(
        rt,
        "129 phrases",
        Shape {
            pieces: 129,
            each: 1,
            length: 1,
            differ: false,
            phrases: 129,
        },
    );
    shaped(
        rt,
        "257 pieces",
        Shape {
            pieces: 257,
            each: 8,
            length: 1,
            differ: false,
            phrases: 33,
        },
    );
    shaped(
        rt,
        "2078 prefixes",
        Shape {
            pieces: 67,
            each: 8,
            length: 32,
            differ: true,
            phrases: 9,
        },
    );
}

fn small(rt: &impl Print) {
    let mut crossed = EXAMPLE;
    crossed[LEAST_AT] = NINE;
    crossed[MOST_AT] = 1;
    let short = &EXAMPLE[..SHORT];
    line(rt, "the example", &EXAMPLE, SIZE);
    line(rt, "the example, least above most", &crossed, SIZE);
    line(rt, "the example cut short", short, SIZE);
    line(rt, "the empty book", b"", SIZE);
    line(rt, "tables one byte short", &EXAMPLE, SIZE - 1);
    line(rt, "no tables", &EXAMPLE, 0);
    line(rt, "tables one byte longer", &EXAMPLE, SIZE + 1);
    again(rt, "the example, then it cut short", &EXAMPLE, short);
}

// A line that can't be written is left out; the lines after it are written still.
fn main(rt: HostRuntime) {
    small(&rt);
    largest(&rt);
    too_large(&rt);
}
