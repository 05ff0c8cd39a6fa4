// A book, read to the start of a buffer.
ghost use Rattle.std.specs.Prelude.{◌≡◌, ◌≤◌, length, IfOk};
ghost use Rattle.pipes.specs.Reading.{ReadTo};
ghost use Rattle.pipes.specs.Books.{BookOf, SizedBook, WholeBook};

use crate::NotListed;
use crate::reading::{NotRead, fill};
use std::io::Read;

const LENGTH_BYTES: usize = 2;

// A book of so many bytes, and whether input may follow them.
#[derive(Clone, Copy, Debug, PartialEq, Eq)]
pub struct Book {
    pub size: usize,
    pub more: bool,
}

// Two bytes of book length, high byte first, and the book. Where the input ends early, the book is what came, and empty if its length is
// cut.
pub fn sized_book<R: Read>(from: &mut R, book: &mut [u8]) -> Result<Book, NotListed>
    requires { 65535 ≤ length book.old }
    ensures { ReadTo 2 (λ told. SizedBook told result) }
{
    let mut length = [0u8; LENGTH_BYTES];
    let told = fill(from, &mut length);
    let size = usize::from(lent::get2_high(&length, 0));
    book_behind(told, size, from, book)
}

// The book of so many bytes behind its length, if that came.
fn book_behind<R: Read>(
    told: Result<usize, NotRead>,
    size: usize,
    from: &mut R,
    book: &mut [u8],
) -> Result<Book, NotListed>
    requires { (size ≤ 65535) × (size ≤ length book.old) }
    ensures told { SizedBook told result }
    ensures sized { IfOk told (λ count. 2 ≤ count → ReadTo size (λ came. BookOf size came result)) }
{
    let Ok(count) = told else {
        return Err(NotListed::BookNotRead);
    };
    if count < LENGTH_BYTES {
        return Ok(Book {
            size: 0,
            more: false,
        });
    }
    book_of(fill(from, &mut book[..size]), size)
}

// What a read brought, as a book of so many bytes.
fn book_of(came: Result<usize, NotRead>, size: usize) -> Result<Book, NotListed>
    ensures { BookOf size came result }
{
    match came {
        Ok(came) => Ok(Book {
            size: came,
            more: came == size,
        }),
        Err(NotRead) => Err(NotListed::BookNotRead),
    }
}

// The book that a reader brings to its end; the letter comes from another one.
pub fn whole_book<R: Read>(from: &mut R, book: &mut [u8]) -> Result<Book, NotListed>
    ensures { ReadTo (length book.old) (λ came. WholeBook (length book.old) came result) }
{
    whole_of(fill(from, book), book.len())
}

// What a read brought, as a whole book. A full buffer is a book that is too long.
fn whole_of(came: Result<usize, NotRead>, room: usize) -> Result<Book, NotListed>
    ensures { WholeBook room came result }
{
    let size = came.map_err(|_| NotListed::BookNotRead)?;
    if size == room {
        return Err(NotListed::BookTooLong);
    }
    Ok(Book { size, more: true })
}
