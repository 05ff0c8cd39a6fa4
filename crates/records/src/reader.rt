// The record reader: it holds the book's slice and the offset of the next record, and goes from record to record.
ghost use Rattle.std.specs.Prelude.{◌≡◌};
ghost use Rattle.records.specs.Records.{ReadRight};
ghost use Rattle.records.specs.Readers.{moved_past};

use crate::records::{Cursor, Found, found_at};
use crate::refusals::Refused;

#[derive(Clone, Copy)]
pub struct Reader<'a> {
    pub book: &'a [u8],
    pub at: usize,
}

impl<'a> Reader<'a> {
    // What stands where the reader is. The reader goes past a record, and stays at what is refused.
    pub fn next(&mut self) -> Result<Found, Refused>
        ensures { (ReadRight self.old.book.now self.old.at result) × (self.new ≡ moved_past self.old result) }
    {
        let found = found_at(self.book, self.at)?;
        self.at = found.next.at;
        Ok(found)
    }
}

// What is found at a cursor.
pub fn read(book: &[u8], cursor: Cursor) -> Result<Found, Refused>
    ensures { ReadRight book.now cursor.at result }
{
    found_at(book, cursor.at)
}
