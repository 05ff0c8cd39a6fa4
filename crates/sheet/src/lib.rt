// Phrase books, sound ones and broken ones, for the programs that try the scanner: written record by record on a sheet, or on lent bytes
// from a place on. What does not fit is left out.
#![tactic(auto)]

ghost use Rattle.std.specs.Prelude.{◌≡◌, ◌∷◌, [], ◌++◌, ◌+◌, ◌/◌, ◌%◌, ◌<◌, ◌≤◌, ℕ, List, take, length};
ghost use Rattle.std.proofs.Math.ListN.{replicate};
ghost use Rattle.sheet.specs.Sheets.{with_byte, with_all, with_many, two_bytes, header_of, phrase_of, bounded_of, open_of, end_of, keyword_of};

use std::marker::Model;

const BYTE: u16 = 256;

// A keyword's kind is this number and its length.
const KEYWORD_BASE: u8 = 0x80;

// The kinds of records other than keywords.
#[derive(Clone, Copy, Debug, PartialEq, Eq)]
pub enum Kind {
    Header = 0x01,
    Phrase = 0x02,
    Bounded = 0x03,
    Open = 0x04,
    End = 0x7F,
}

pub const HEADER: u8 = Kind::Header as u8;

pub const PHRASE: u8 = Kind::Phrase as u8;

pub const BOUNDED: u8 = Kind::Bounded as u8;

pub const OPEN: u8 = Kind::Open as u8;

pub const END: u8 = Kind::End as u8;

// The book of document 01's example: phrase 7, rights 1, anywhere "not", then 1 to 9 bytes, then "print".
pub const EXAMPLE: [u8; 27] = [
    0x01, 0x01, 0x02, 0x00, 0x07, 0x01, 0x04, 0x00, 0x00, 0x83, 0x6E, 0x6F, 0x74, 0x03, 0x00, 0x01,
    0x00, 0x09, 0x85, 0x70, 0x72, 0x69, 0x6E, 0x74, 0x7F, 0x00, 0x01,
];

// ── On lent bytes: each function answers where the next byte goes ──
// Kept, holds: a lent buffer of any length, written from any place on, with every other byte as it was; a sheet has neither.

// One byte.
pub fn byte(book: &mut [u8], at: usize, value: u8) -> usize
    ensures { record { bytes = book.new; next = result } ≡ with_byte (record { bytes = book.old; next = at }) value }
{
    if at < book.len() {
        book[at] = value;
        return at + 1;
    }
    at
}

// A number of two bytes, high byte first.
pub fn two(book: &mut [u8], at: usize, value: u16) -> usize
    ensures { record { bytes = book.new; next = result } ≡ with_all (record { bytes = book.old; next = at }) (two_bytes value) }
{
    let high = byte(book, at, (value / BYTE) as u8);
    byte(book, high, (value % BYTE) as u8)
}

// The same byte so many times.
pub fn many(book: &mut [u8], at: usize, count: usize, value: u8) -> usize
    ensures { record { bytes = book.new; next = result } ≡ with_many (record { bytes = book.old; next = at }) count value }
{
    let mut end = at;
    for n in 0..count {
        end = byte(book, end, value);
    }
    end
}

// A header record.
pub fn header(book: &mut [u8], at: usize, edition: u8) -> usize
    ensures { record { bytes = book.new; next = result } ≡ with_all (record { bytes = book.old; next = at }) (header_of edition) }
{
    let field = byte(book, at, HEADER);
    byte(book, field, edition)
}

// A phrase record.
pub fn phrase(book: &mut [u8], at: usize, number: u16, rights: u8) -> usize
    ensures { record { bytes = book.new; next = result } ≡ with_all (record { bytes = book.old; next = at }) (phrase_of number rights) }
{
    let field = byte(book, at, PHRASE);
    let last = two(book, field, number);
    byte(book, last, rights)
}

// A bounded gap.
pub fn bounded(book: &mut [u8], at: usize, least: u16, most: u16) -> usize
    ensures { record { bytes = book.new; next = result } ≡ with_all (record { bytes = book.old; next = at }) (bounded_of least most) }
{
    let field = byte(book, at, BOUNDED);
    let last = two(book, field, least);
    two(book, last, most)
}

// An open gap.
pub fn open(book: &mut [u8], at: usize, least: u16) -> usize
    ensures { record { bytes = book.new; next = result } ≡ with_all (record { bytes = book.old; next = at }) (open_of least) }
{
    let field = byte(book, at, OPEN);
    two(book, field, least)
}

// An end record.
pub fn end(book: &mut [u8], at: usize, phrases: u16) -> usize
    ensures { record { bytes = book.new; next = result } ≡ with_all (record { bytes = book.old; next = at }) (end_of phrases) }
{
    let field = byte(book, at, END);
    two(book, field, phrases)
}

// ── On a sheet ──

// Room for so many bytes, of which the first are written.
#[derive(Drop)]
pub struct Sheet<const N: usize> {
    bytes: [u8; N],
    end: usize,
}

// Clauses see the bytes that are written.
impl<const N: usize> Model for Sheet<N> {
    ghost Value = { List ℕ };

    ghost view = { λ s. take s.end s.bytes };

    ghost invariant = { λ s. s.end ≤ N };
}

impl<const N: usize> Sheet<N> {
    // An empty sheet.
    pub fn new() -> Self
        ensures { result ≡ [] }
    {
        Sheet {
            bytes: [0; N],
            end: 0,
        }
    }

    // What is written.
    pub fn as_slice(&self) -> &[u8]
        ensures { result.now ≡ self.now }
    {
        &self.bytes[..self.end]
    }

    // One byte.
    pub fn byte(&mut self, value: u8)
        ensures { self.new ≡ take N (self.old ++ value ∷ []) }
    {
        if N <= self.end {
            return;
        }
        self.bytes[self.end] = value;
        self.end += 1;
    }

    // A number of two bytes, high byte first.
    pub fn two(&mut self, value: u16)
        ensures { self.new ≡ take N (self.old ++ two_bytes value) }
    {
        self.byte((value / BYTE) as u8);
        self.byte((value % BYTE) as u8);
    }

    // The same byte so many times.
    pub fn many(&mut self, count: usize, value: u8)
        ensures { self.new ≡ take N (self.old ++ replicate count value) }
    {
        // no more is written than fits, which the loop rests on
        let _ = &self.end;
        for n in 0..count {
            self.byte(value);
        }
    }

    // These bytes.
    pub fn bytes(&mut self, values: &[u8])
        ensures { self.new ≡ take N (self.old ++ values.now) }
    {
        // no more is written than fits, which the loop rests on
        let _ = &self.end;
        for value in values {
            self.byte(*value);
        }
    }

    // A header record.
    pub fn header(&mut self, edition: u8)
        ensures { self.new ≡ take N (self.old ++ header_of edition) }
    {
        self.byte(Kind::Header as u8);
        self.byte(edition);
    }

    // A phrase record.
    pub fn phrase(&mut self, number: u16, rights: u8)
        ensures { self.new ≡ take N (self.old ++ phrase_of number rights) }
    {
        self.byte(Kind::Phrase as u8);
        self.two(number);
        self.byte(rights);
    }

    // A bounded gap.
    pub fn bounded(&mut self, least: u16, most: u16)
        ensures { self.new ≡ take N (self.old ++ bounded_of least most) }
    {
        self.byte(Kind::Bounded as u8);
        self.two(least);
        self.two(most);
    }

    // An open gap.
    pub fn open(&mut self, least: u16)
        ensures { self.new ≡ take N (self.old ++ open_of least) }
    {
        self.byte(Kind::Open as u8);
        self.two(least);
    }

    // A keyword record; none for a keyword of 128 bytes or more, which has no kind.
    pub fn keyword(&mut self, letters: &[u8])
        ensures fits { length letters.now < 0x80 → self.new ≡ take N (self.old ++ keyword_of letters.now) }
        ensures none { 0x80 ≤ length letters.now → self.new ≡ self.old }
    {
        if letters.len() < 0x80 {
            self.byte(KEYWORD_BASE + letters.len() as u8);
            self.bytes(letters);
        }
    }

    // An end record.
    pub fn end(&mut self, phrases: u16)
        ensures { self.new ≡ take N (self.old ++ end_of phrases) }
    {
        self.byte(Kind::End as u8);
        self.two(phrases);
    }
}
