// The listing in lent buffers: the book is opened, and the parts of the letter are listed one after the other; crate `lines` has the last
// lines. Each function writes its lines at the start of `out` and answers where they end; the caller passes these bytes on before the next
// call.
#![tactic(auto)]

ghost use Rattle.std.specs.Prelude.{◌≡◌, ◌≤◌, length};
ghost use Rattle.lines.specs.Answers.{opened_end, listed_taken, listed_end};
ghost use Rattle.parts.specs.Exact.{begun_of, part_refused};
ghost use Rattle.parts.specs.Promised.{OpenPromise, ListPromise};

use builder::build;
use lines::{BookRefused, Listed, PartRefused, put_hits};
use listing::{book_line, refused_line};
use scanner::{FeedError, begin, feed};
use tables::Tables;

// Builds the tables of a book, begins the letter, and writes the line of the book.
pub fn open_book(
    book: &[u8],
    tables: &mut [u8],
    running: &mut [u8],
    out: &mut [u8],
) -> Result<usize, BookRefused>
    ensures open_promise { OpenPromise book.now tables.old running.old out.old (record { answer = result; tables = tables.new; running = running.new; out = out.new }) }
    ensures result_in_bounds { opened_end result ≤ length out.old }
{
    match build(book, tables) {
        Ok(length) => begin_letter(tables, running, out, length as u64),
        Err(why) => {
            let number = u64::from(why.number());
            let offset = why.offset() as u64;
            let end = refused_line(out, 0, number, offset);
            Err(BookRefused { end })
        }
    }
}

// Begins the letter with the tables of a book that was taken, and writes the book line.
fn begin_letter(
    tables: &[u8],
    running: &mut [u8],
    out: &mut [u8],
    offset: u64,
) -> Result<usize, BookRefused>
    ensures { record { answer = result; tables = tables.now; running = running.new; out = out.new } ≡ begun_of tables.now running.old out.old offset }
{
    match begin(tables, running) {
        Ok(()) => {
            let phrases = Tables::of(tables).phrase_count() as u64;
            Ok(book_line(out, 0, 0, offset, phrases))
        }
        Err(_) => Err(BookRefused { end: 0 }),
    }
}

// Feeds what remains of a part, and writes a hit line for each report.
pub fn list_part(
    tables: &[u8],
    running: &mut [u8],
    part: &[u8],
    room: &mut [u32],
    out: &mut [u8],
) -> Result<Listed, PartRefused>
    ensures list_promise { ListPromise tables.now running.old part.now room.old out.old (record { answer = result; running = running.new; room = room.new; out = out.new }) }
    ensures result_in_bounds { (listed_taken result ≤ length part.now) × (listed_end result ≤ length out.old) }
{
    match feed(tables, running, part, room) {
        Ok(took) => Ok(Listed {
            taken: took.taken,
            hits: took.reports,
            steps: took.steps,
            end: put_hits(&Tables::of(tables), room, took.reports, out),
        }),
        Err(why) => Err(part_refused(why)),
    }
}

// What feed's refusal is to the listing.
fn part_refused(why: FeedError) -> PartRefused
    ensures { result ≡ part_refused why }
{
    match why {
        FeedError::TooLong => PartRefused::TooLong,
        FeedError::Memory(_) | FeedError::NoRoom => PartRefused::NotTaken,
    }
}
