// Judges books at document 01's limits and just past them, and writes a line for each: what is tried, then the book's number,
// its offset and, where it is accepted, its phrases.
#![tactic(auto)]

use book::{Accepted, Refused};
use sheet::{EXAMPLE, Kind, Sheet};
use std::fmt;

// The longest book that is tried here has 10,245 bytes.
type Book = Sheet<12288>;

const LONGEST_KEYWORD: usize = 32;

const PIECES_IN_A_PHRASE: u16 = 8;

// ── What is written ──

// What a book is found to be.
#[derive(Drop)]
struct Found(Result<Accepted, Refused>);

impl fmt::Display for Found {
    fn fmt<W: fmt::Write>(&self, f: &mut fmt::Formatter<W>) -> fmt::Result {
        match self.0 {
            Ok(Accepted { length, phrases }) => {
                write!(f, "book 0 at {length} phrases {phrases}")
            }
            Err(Refused { why, at }) => write!(f, "book {} at {at}", u8::from(why)),
        }
    }
}

fn line(rt: &impl Print, what: &str, book: &[u8]) {
    let found = Found(book::judge(book));
    let _ = println!(rt; "{what}: {found}");
}

// A line for the book that is written on an empty sheet.
fn tried<W: FnOnce(&mut Book)>(rt: &impl Print, what: &str, write: W)
    requires { W.IsAlwaysCallable write }
{
    let mut book = Book::new();
    write(&mut book);
    line(rt, what, book.as_slice());
}

// ── Books of one phrase and one piece ──

// The keyword has the first byte, then the second, then x up to its length.
fn keyword(book: &mut Book, length: usize, first: u8, second: u8) {
    let mut letters = [b'x'; LONGEST_KEYWORD + 1];
    letters[0] = first;
    letters[1] = second;
    if let Some(word) = letters.get(..length) {
        book.keyword(word);
    }
}

fn begin(book: &mut Book, edition: u8, first: u16, rights: u8) {
    book.header(edition);
    book.phrase(first, rights);
}

// The keyword a and the end record.
fn finish(book: &mut Book, phrases: u16) {
    book.keyword(b"a");
    book.end(phrases);
}

fn with_fields(rt: &impl Print, what: &str, edition: u8, first: u16, rights: u8) {
    tried(rt, what, |book| {
        begin(book, edition, first, rights);
        book.open(0);
        finish(book, 1);
    });
}

// One phrase whose gap and keyword are written by hand.
fn with_piece<W: FnOnce(&mut Book)>(rt: &impl Print, what: &str, piece: W)
    requires { W.IsAlwaysCallable piece }
{
    tried(rt, what, |book| {
        begin(book, 1, 1, 1);
        piece(book);
    });
}

fn with_open(rt: &impl Print, what: &str, least: u16) {
    with_piece(rt, what, |book| {
        book.open(least);
        finish(book, 1);
    });
}

fn with_bounds(rt: &impl Print, what: &str, least: u16, most: u16) {
    with_piece(rt, what, |book| {
        book.bounded(least, most);
        finish(book, 1);
    });
}

fn with_keyword(rt: &impl Print, what: &str, length: usize) {
    with_piece(rt, what, |book| {
        book.open(0);
        keyword(book, length, b'a', b'b');
        book.end(1);
    });
}

// Two phrases with these numbers.
fn with_numbers(rt: &impl Print, what: &str, first: u16, second: u16) {
    tried(rt, what, |book| {
        begin(book, 1, first, 1);
        book.open(0);
        book.keyword(b"a");
        book.phrase(second, 1);
        book.open(0);
        finish(book, 2);
    });
}

// One phrase, an end record with this number, and so many bytes after it.
fn with_end(rt: &impl Print, what: &str, phrases: u16, after: usize) {
    with_piece(rt, what, |book| {
        book.open(0);
        finish(book, phrases);
        book.many(after, 0);
    });
}

// ── Records where they may not stand ──

fn misplaced(rt: &impl Print, what: &str, kind: u8, behind: usize) {
    with_piece(rt, what, |book| {
        book.byte(kind);
        book.many(behind, 0);
    });
}

fn only_header_and_end(rt: &impl Print) {
    tried(rt, "no phrase", |book| {
        book.header(1);
        book.end(0);
    });
}

fn two_gaps(rt: &impl Print) {
    with_piece(rt, "a gap after a gap", |book| {
        book.open(0);
        book.open(0);
        finish(book, 1);
    });
}

// A phrase record with number 0 that is cut short: 2 comes before 4.
fn cut_bad_field(rt: &impl Print) {
    tried(rt, "a bad field in a cut record", |book| {
        book.header(1);
        book.byte(Kind::Phrase as u8);
        book.two(0);
    });
}

fn cut_everywhere(rt: &impl Print) {
    for n in 0..=EXAMPLE.len() {
        let found = Found(book::judge(&EXAMPLE[..n]));
        let _ = println!(rt; "the example cut after {n}: {found}");
    }
}

// ── Books of many pieces ──

// Piece n of a book, behind a phrase record where it begins a phrase: every `each` pieces.
fn piece(book: &mut Book, n: u16, each: u16, length: usize, first: u8, second: u8) {
    if n.checked_rem(each) == Some(0) {
        book.phrase(n % 4096 + 1, 1);
    }
    book.open(0);
    keyword(book, length, first, second);
}

// So many pieces of one byte.
fn small_pieces(rt: &impl Print, what: &str, count: u16, each: u16, phrases: u16) {
    tried(rt, what, |book| {
        book.header(1);
        for n in 0..count {
            piece(book, n, each, 1, b'a', b'a');
        }
        book.end(phrases);
    });
}

// A bounded gap and a keyword of 32 bytes.
fn longest_piece(book: &mut Book) {
    book.bounded(0, 0);
    keyword(book, LONGEST_KEYWORD, b'a', b'b');
}

fn longest_phrase(book: &mut Book, number: u16) {
    book.phrase(number, 1);
    longest_piece(book);
    longest_piece(book);
}

// The longest book: 128 phrases of two such pieces.
fn longest(rt: &impl Print) {
    tried(rt, "the longest book", |book| {
        book.header(1);
        for number in 1..=128u16 {
            longest_phrase(book, number);
        }
        book.end(128);
    });
}

// 63 keywords of 32 bytes that share nothing, and a last one: 2,016 prefixes and those of the last.
fn without_sharing(rt: &impl Print, what: &str, last: usize) {
    tried(rt, what, |book| {
        book.header(1);
        for n in 0..63u8 {
            piece(
                book,
                u16::from(n),
                PIECES_IN_A_PHRASE,
                LONGEST_KEYWORD,
                n,
                b'x',
            );
        }
        piece(book, 63, PIECES_IN_A_PHRASE, last, 63, b'x');
        book.end(8);
    });
}

// 66 keywords of 32 bytes that share their first byte: 2,047 prefixes.
fn with_shared(book: &mut Book) {
    book.header(1);
    for n in 0..66u8 {
        piece(
            book,
            u16::from(n),
            PIECES_IN_A_PHRASE,
            LONGEST_KEYWORD,
            b'a',
            n,
        );
    }
}

// These keywords alone.
fn with_sharing(rt: &impl Print, what: &str) {
    tried(rt, what, |book| {
        with_shared(book);
        book.end(9);
    });
}

// These keywords and one more.
fn with_one_more(rt: &impl Print, what: &str, length: usize, second: u8) {
    tried(rt, what, |book| {
        with_shared(book);
        piece(book, 66, PIECES_IN_A_PHRASE, length, b'a', second);
        book.end(9);
    });
}

// ── The cases ──

fn fields(rt: &impl Print) {
    with_fields(rt, "edition 0", 0, 1, 1);
    with_fields(rt, "edition 1", 1, 1, 1);
    with_fields(rt, "edition 2", 2, 1, 1);
    with_fields(rt, "phrase number 0", 1, 0, 1);
    with_fields(rt, "phrase number 65535", 1, 65535, 1);
    with_fields(rt, "rights 0", 1, 1, 0);
    with_fields(rt, "rights 1", 1, 1, 1);
    with_fields(rt, "rights 12", 1, 1, 12);
    with_fields(rt, "rights 13", 1, 1, 13);
}

fn gaps(rt: &impl Print) {
    with_open(rt, "open, least 224", 224);
    with_open(rt, "open, least 225", 225);
    with_bounds(rt, "bounded, least 224", 224, 60000);
    with_bounds(rt, "bounded, least 225", 225, 60000);
    with_bounds(rt, "most 60000", 0, 60000);
    with_bounds(rt, "most 60001", 0, 60001);
    with_bounds(rt, "least equal to most", 7, 7);
    with_bounds(rt, "least above most", 8, 7);
    with_bounds(rt, "least 225 above most", 225, 7);
}

fn kinds(rt: &impl Print) {
    with_keyword(rt, "kind A0", 32);
    with_keyword(rt, "kind A1", 33);
    with_keyword(rt, "kind 80", 0);
    misplaced(
        rt,
        "a phrase with no piece, then the end",
        Kind::End as u8,
        2,
    );
    misplaced(
        rt,
        "a phrase with no piece, then a phrase",
        Kind::Phrase as u8,
        3,
    );
    misplaced(rt, "a keyword without a gap", 0x81, 1);
    misplaced(rt, "an unknown kind", 0x05, 0);
    only_header_and_end(rt);
    two_gaps(rt);
    cut_bad_field(rt);
}

fn order_and_end(rt: &impl Print) {
    with_numbers(rt, "phrase numbers 7 and 8", 7, 8);
    with_numbers(rt, "phrase numbers 7 and 7", 7, 7);
    with_numbers(rt, "phrase numbers 7 and 6", 7, 6);
    with_end(rt, "end says 1", 1, 0);
    with_end(rt, "end says 0", 0, 0);
    with_end(rt, "end says 2", 2, 0);
    with_end(rt, "end says 256", 256, 0);
    with_end(rt, "a byte after the end record", 1, 1);
    with_end(rt, "end says 2, and a byte after it", 2, 1);
}

fn counts(rt: &impl Print) {
    small_pieces(rt, "128 phrases", 128, 1, 128);
    small_pieces(rt, "129 phrases", 129, 1, 129);
    small_pieces(rt, "8 pieces in a phrase", 8, 8, 1);
    small_pieces(rt, "9 pieces in a phrase", 9, 9, 1);
    small_pieces(rt, "256 pieces", 256, 8, 32);
    small_pieces(rt, "257 pieces", 257, 8, 33);
    longest(rt);
}

fn prefixes(rt: &impl Print) {
    without_sharing(rt, "2047 prefixes", 31);
    without_sharing(rt, "2048 prefixes", 32);
    with_sharing(rt, "2047 prefixes, shared");
    with_one_more(rt, "2047 prefixes, a keyword repeated", 32, 0);
    with_one_more(rt, "2047 prefixes, a prefix of a keyword", 2, 65);
    with_one_more(rt, "2048 prefixes, shared", 2, 66);
}

// A line that can't be written is left out; the lines after it are written still.
fn main(rt: HostRuntime) {
    line(&rt, "the empty book", b"");
    cut_everywhere(&rt);
    fields(&rt);
    gaps(&rt);
    kinds(&rt);
    order_and_end(&rt);
    counts(&rt);
    prefixes(&rt);
}
