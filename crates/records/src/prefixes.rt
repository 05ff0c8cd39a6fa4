// How much a keyword shares with those before it: its longest common prefix with an earlier keyword of the book, which is found by
// reading the records before it again.
ghost use Rattle.std.specs.Prelude.{◌≡◌, ◌+◌, ◌≤◌, length};
ghost use Rattle.meaning.specs.Matching.{bytes_after};
ghost use Rattle.format.specs.Prefixes.{common_prefix, most_shared};
ghost use Rattle.records.specs.Prefixes.{Lies, keyword_of, keywords_before};

use crate::reader::read;
use crate::records::{Cursor, Record};

// How many bytes two keywords have in common from their start on.
fn common(keyword: &[u8], other: &[u8]) -> usize
    ensures { result ≡ common_prefix keyword.now other.now }
{
    let mut shared = 0;
    for (byte, other_byte) in keyword.iter().zip(other) {
        if byte != other_byte {
            return shared;
        }
        shared += 1;
    }
    shared
}

// How many bytes a keyword shares with what a record says: none where that is no keyword.
fn shared_with(book: &[u8], keyword: &[u8], says: Record) -> usize
    requires inside { Lies book.now says }
    ensures { result ≡ most_shared (keyword_of book.now says) keyword.now }
{
    match says {
        Record::Keyword { start, length } => common(keyword, &book[start..start + length]),
        _ => 0,
    }
}

// The longest common prefix of the keyword of `count` bytes from `start` on with any keyword of the records before an offset. Where
// there is no record, nothing more is read.
pub fn most_shared(book: &[u8], end: usize, start: usize, count: usize) -> usize
    requires end_in_bounds { end ≤ length book.now }
    requires count_in_bounds { start + count ≤ length book.now }
    ensures { (result ≡ most_shared (keywords_before book.now end) (bytes_after start count book.now)) × (result ≤ count) }
{
    let keyword = &book[start..start + count];
    let mut at = 0;
    let mut most = 0;
    while at < end {
        let Ok(found) = read(book, Cursor { at }) else {
            return most;
        };
        most = most.max(shared_with(book, keyword, found.says));
        at = found.next.at;
    }
    most
}
