// The records of a book: what stands at an offset of its bytes. The book is read where it lies, never by a copy.
ghost use Rattle.std.specs.Prelude.{◌≡◌, ◌+◌, ◌<◌, length};
ghost use Rattle.format.specs.Faults.{body_length};
ghost use Rattle.records.specs.Kinds.{byte_of};
ghost use Rattle.records.specs.Records.{body_at, record_for, ReadRight};

use crate::kinds::{Kind, MOST_AT, RIGHTS_AT};
use crate::refusals::{Refusal, Refused};
use counters::Number;

// The offset at which a record begins.
#[derive(Clone, Copy, Debug, PartialEq, Eq)]
pub struct Cursor {
    pub at: usize,
}

// What a whole record says, field by field.
#[derive(Clone, Copy)]
pub enum Record {
    Header { edition: u8 },
    Phrase { number: Number, rights: u8 },
    Bounded { least: u16, most: u16 },
    Open { least: u16 },
    // The keyword is the `length` bytes of the book from `start` on.
    Keyword { start: usize, length: usize },
    End { count: u16 },
}

// What reading at a cursor finds: what a whole record says, and the cursor behind it.
#[derive(Clone, Copy)]
pub struct Found {
    pub says: Record,
    pub next: Cursor,
}

// What a whole record of a kind says, whose kind byte stands at an offset.
#[tactic(auto, unfolding(format::specs::Faults::body_length, format::specs::Faults::two, lent::specs::Numbers::high_number_at, crate::specs::Records::record_for, crate::specs::Records::body_at))]
fn record_of(book: &[u8], at: usize, kind: Kind) -> Record
    requires { at + body_length (byte_of kind) < length book.now }
    ensures { result ≡ record_for at (byte_of kind) (body_at book.now at (byte_of kind)) }
{
    let start = at + 1;
    match kind {
        Kind::Header => Record::Header {
            edition: book[start],
        },
        Kind::Phrase => Record::Phrase {
            number: Number::of(lent::get2_high(book, start)),
            rights: book[at + RIGHTS_AT],
        },
        Kind::Bounded => Record::Bounded {
            least: lent::get2_high(book, start),
            most: lent::get2_high(book, at + MOST_AT),
        },
        Kind::Open => Record::Open {
            least: lent::get2_high(book, start),
        },
        Kind::Keyword { length } => Record::Keyword {
            start,
            length: usize::from(length),
        },
        Kind::End => Record::End {
            count: lent::get2_high(book, start),
        },
    }
}

// What is found at an offset. Where the book stops before it, the refusal is at the book's length.
pub(crate) fn found_at(book: &[u8], at: usize) -> Result<Found, Refused>
    ensures { ReadRight book.now at result }
{
    if book.len() <= at {
        return Err(Refused {
            why: Refusal::Cut,
            at: book.len(),
        });
    }
    let Some(kind) = Kind::of(book[at]) else {
        return Err(Refused {
            why: Refusal::Kind,
            at,
        });
    };
    let body = kind.body();
    if book.len() - at <= body {
        return Err(Refused {
            why: Refusal::Cut,
            at,
        });
    }
    Ok(Found {
        says: record_of(book, at, kind),
        next: Cursor { at: at + 1 + body },
    })
}
