// Bytes between readers, writers and lent memory: a book and the parts of a letter are read, lines are written, and it is said how a listing
// ended. What is listed is decided elsewhere; a failed read or write ends the listing.
#![tactic(auto)]

mod books;
mod ends;
mod letter;
mod reading;
mod words;

pub use books::{Book, sized_book, whole_book};
pub use letter::{Standing, Totals, Turn, after, next, start};
pub use reading::NotRead;
pub use words::say;

// Why a letter is not listed to its end: what the caller is told, since what was read and written no contract can say. A letter that is
// read to its end has its end line written.
#[derive(Clone, Copy, Debug, PartialEq, Eq)]
pub enum NotListed {
    // the book was refused, and its line is written
    BookRefused,
    // the letter was refused with 11, and its line is written
    LetterRefused,
    // the book is longer than two bytes can say; nothing is written
    BookTooLong,
    // a read of the book failed; nothing is written
    BookNotRead,
    // a read of the letter failed; no end line is written
    LetterNotRead,
    // a write failed, and nothing was written after it
    NotWritten,
    // the scanner refused its own tables, which build never leaves so; no end line is written
    NotTaken,
}
