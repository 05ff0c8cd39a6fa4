// The lines of the listing, as bytes in a lent buffer. A line is written from `at` on, and the answer is where it ends. A line
// that does not fit is not begun: the buffer stays as it was, and the answer is `at`.
// Kept, no plainer: a writer that held `out` and `at` needs, on each function, `self.new.out.ghost_name ≡ self.old.out.ghost_name` beside its line.
#![tactic(auto)]

ghost use Rattle.std.specs.Prelude.{◌≡◌};
ghost use Rattle.listing.specs.Lines.{book_line, refused_line, hit_line, end_line, no_statement, letter_line};
ghost use Rattle.listing.specs.Writing.{left, with_line};

use counters::{Number, Place};
use forms::put_line;

mod decimal;
mod forms;

// The most bytes that a line takes: a buffer with as many from `at` on has room for any line.
pub const LONGEST_LINE: usize = 80;

// A book that was taken: build's number, its offset, and the phrases.
pub fn book_line(out: &mut [u8], at: usize, number: u64, offset: u64, phrases: u64) -> usize
    ensures { left out.new result ≡ with_line out.old at (book_line number offset phrases) }
{
    put_line(
        out,
        at,
        b"book # at # phrases #\n",
        &[number, offset, phrases],
    )
}

// A book that was refused: build's number and its offset.
pub fn refused_line(out: &mut [u8], at: usize, number: u64, offset: u64) -> usize
    ensures { left out.new result ≡ with_line out.old at (refused_line number offset) }
{
    put_line(out, at, b"book # at #\n", &[number, offset])
}

// A report: its place, its phrase number, and that phrase's rights code.
pub fn hit_line(out: &mut [u8], at: usize, place: Place, number: Number, rights: u64) -> usize
    ensures { left out.new result ≡ with_line out.old at (hit_line place.0 number.0 rights) }
{
    let place = place.bytes();
    let number = u64::from(number.value());
    put_line(
        out,
        at,
        b"hit # phrase # right #\n",
        &[place, number, rights],
    )
}

// The end of the letter: the bytes taken, which are the place reached, the reports, and the failure steps.
pub fn end_line(out: &mut [u8], at: usize, taken: Place, hits: u64, steps: u64) -> usize
    ensures { left out.new result ≡ with_line out.old at (end_line taken.0 hits steps) }
{
    let taken = taken.bytes();
    put_line(out, at, b"end # hits # steps #\n", &[taken, hits, steps])
}

// What follows the end line where there were no hits.
pub fn no_statement(out: &mut [u8], at: usize) -> usize
    ensures { left out.new result ≡ with_line out.old at no_statement }
{
    put_line(out, at, b"no statement\n", &[])
}

// A letter that passes the largest place, so that feed refused a part of it with 11: the bytes taken until then.
pub fn letter_line(out: &mut [u8], at: usize, taken: Place) -> usize
    ensures { left out.new result ≡ with_line out.old at (letter_line taken.0) }
{
    let taken = taken.bytes();
    put_line(out, at, b"letter 11 at #\n", &[taken])
}
