// The listing over readers and writers: a book and a letter are read, and the lines are written as they come, in fixed memory. Everything that
// is decided, crate `parts` decides, on slices; crate `pipes` moves the bytes; here the two take turns.
#![tactic(auto)]

ghost use Rattle.std.specs.Prelude.{◌≡◌, ◌≤◌, length, Err, MatchResult};
ghost use Rattle.lines.specs.Answers.{opened_end};
ghost use Rattle.pipes.specs.Books.{CameWithin};
ghost use Rattle.stream.specs.Ends.{OpenedEnd, ListingEnd, EndTold};

use letter::list_letter;
use lines::BookRefused;
use listing::LONGEST_LINE;
use pipes::{Book, NotListed, say, sized_book, start, whole_book};
use std::io::{Read, Write};

mod letter;

// The longest book whose length two bytes can say.
const LONGEST_BOOK: usize = 65535;

const TABLES: usize = tables::layout::SIZE;

const RUNNING: usize = running::layout::SIZE;

// Lists what one reader brings, a book with its length in front and the letter to the end, and says to `told` how the listing ended.
pub fn list<R: Read, W: Write, T: Write>(from: &mut R, to: &mut W, told: &mut T)
    ensures { EndTold (T.contents told.old) (T.contents told.new) }
{
    let mut book = [0u8; LONGEST_BOOK];
    let came = sized_book(from, &mut book);
    say(list_came(came, &book, from, to), told);
}

// Lists a book and a letter that come from two readers, each to its end, and says to `told` how the listing ended.
pub fn list_two<B: Read, R: Read, W: Write, T: Write>(
    book_from: &mut B,
    letter_from: &mut R,
    to: &mut W,
    told: &mut T,
)
    ensures { EndTold (T.contents told.old) (T.contents told.new) }
{
    let mut book = [0u8; LONGEST_BOOK + 1];
    let came = whole_book(book_from, &mut book);
    say(list_came(came, &book, letter_from, to), told);
}

// The listing of a book that came, and of the letter behind it.
fn list_came<R: Read, W: Write>(
    came: Result<Book, NotListed>,
    book: &[u8],
    from: &mut R,
    to: &mut W,
) -> Result<(), NotListed>
    requires { CameWithin came (length book.now) }
    ensures { MatchResult came (λ _. ListingEnd result) (λ why. result ≡ Err why) }
{
    let Book { size, more } = came?;
    list_with(&book[..size], more, from, to)
}

// Opens the book and lists the letter. Where no input follows the book, the letter is empty, and nothing more is read.
fn list_with<R: Read, W: Write>(
    book: &[u8],
    more: bool,
    from: &mut R,
    to: &mut W,
) -> Result<(), NotListed>
    ensures { ListingEnd result }
{
    let mut tables = [0u8; TABLES];
    let mut running = [0u8; RUNNING];
    let mut line = [0u8; LONGEST_LINE];
    let opened = parts::open_book(book, &mut tables, &mut running, &mut line);
    list_opened(opened, &line, more, &tables, &mut running, from, to)
}

// The listing from what opening the book answered. A refused book is never told as listed.
fn list_opened<R: Read, W: Write>(
    opened: Result<usize, BookRefused>,
    line: &[u8],
    more: bool,
    tables: &[u8],
    running: &mut [u8],
    from: &mut R,
    to: &mut W,
) -> Result<(), NotListed>
    requires { opened_end opened ≤ length line.now }
    ensures { OpenedEnd opened result }
{
    let first = start(opened, line, more, to);
    list_letter(tables, running, first, from, to)
}
