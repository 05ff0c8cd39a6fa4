// Lines written to a writer, and the last ones of a listing.
ghost use Rattle.std.specs.Prelude.{IsOkUnless};
ghost use Rattle.pipes.specs.declared.NotListed.TheVariants as why;
ghost use Rattle.pipes.specs.Writing.{Written};

use crate::NotListed;
use crate::letter::Totals;
use counters::Place;
use listing::LONGEST_LINE;
use std::io::Write;

// At most two lines end a listing.
const LAST_LINES: usize = 2 * LONGEST_LINE;

// The end line and what follows it.
pub(crate) fn write_end<W: Write>(totals: Totals, to: &mut W) -> Result<(), NotListed>
    ensures { IsOkUnless result why.NotWritten }
{
    let mut lines = [0u8; LAST_LINES];
    let end = lines::last_lines(
        &mut lines,
        Place::at(totals.taken),
        totals.hits,
        totals.steps,
    );
    write_whole(&lines[..end], to)
}

// The line of a letter that was refused with 11, in place of the end line.
pub(crate) fn write_too_long<W: Write>(totals: Totals, to: &mut W) -> Result<(), NotListed>
    ensures { IsOkUnless result why.NotWritten }
{
    let mut lines = [0u8; LAST_LINES];
    let end = lines::too_long_line(&mut lines, Place::at(totals.taken));
    write_whole(&lines[..end], to)
}

// Writes all the bytes, straight from where they stand, or stops at the first write that takes none or fails.
pub(crate) fn write_whole<W: Write>(bytes: &[u8], to: &mut W) -> Result<(), NotListed>
    ensures told { IsOkUnless result why.NotWritten }
    ensures written { Written (W.contents to.old) (W.contents to.new) bytes.now result }
{
    let mut rest = bytes;
    while !rest.is_empty() {
        match to.write(rest) {
            Ok(0) | Err(_) => return Err(NotListed::NotWritten),
            Ok(count) => rest = &rest[count..],
        }
    }
    Ok(())
}
