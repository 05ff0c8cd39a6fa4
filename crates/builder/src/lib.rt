// Build: from the bytes of a phrase book to its tables, in memory that the caller lends.
#![tactic(auto)]

ghost use Rattle.builder.specs.Build.{BuiltRight};

use book::judge;
use passes::fill;
use tables::layout::SIZE;

mod answers;
mod header;
mod passes;

pub use answers::{BuildError, number, offset};

// Builds the tables of a book. Whatever the lent memory held, it is cleared up to the published size before the book is looked
// at, so that a refused book leaves no tables behind. Bytes past that size are not touched. Answers the length of the book that is built.
pub fn build(book: &[u8], tables: &mut [u8]) -> Result<usize, BuildError>
    ensures { BuiltRight book.now tables.old result tables.new }
{
    if tables.len() < SIZE {
        return Err(BuildError::TooSmall);
    }
    lent::clear(tables, 0, SIZE);
    let accepted = judge(book)?;
    fill(book, tables);
    Ok(accepted.length)
}
