// The letter, part after part in one buffer: a part is used up, and its lines are written, before the next is read.
ghost use Rattle.std.specs.Prelude.{◌≡◌, ◌+◌, ◌<◌, ◌≤◌, length};
ghost use Rattle.lines.specs.Answers.{opened_end, listed_taken, listed_end};
ghost use Rattle.pipes.specs.Letter.{PartInside, unused, Started, Next, PartRead, after_bytes, AfterCall};

use crate::NotListed;
use crate::ends::{write_end, write_too_long, write_whole};
use crate::reading::{NotRead, fill};
use lines::{BookRefused, Listed, PartRefused};
use std::io::{Read, Write};

// What a letter has come to so far.
#[derive(Clone, Copy, Debug, PartialEq, Eq)]
pub struct Totals {
    pub taken: u64,
    pub hits: u64,
    pub steps: u64,
}

// Where a letter stands: the part that was read last has `size` bytes, of which `used` are used; whether input may follow it; and what the
// letter has come to.
#[derive(Clone, Copy, Debug, PartialEq, Eq)]
pub struct Standing {
    pub size: usize,
    pub used: usize,
    pub more: bool,
    pub totals: Totals,
}

// Whether a listing goes on, from where the letter stands. Where it is over, the letter is listed to its end, or it is said why not.
pub type Turn = Result<Option<Standing>, NotListed>;

// A part of so many bytes, of which none is used.
fn unused(size: usize, more: bool, totals: Totals) -> Standing
    ensures { result ≡ unused size more totals }
{
    Standing {
        size,
        used: 0,
        more,
        totals,
    }
}

// The letter begins where the book is ready, once the line of the book is written.
pub fn start<W: Write>(
    opened: Result<usize, BookRefused>,
    line: &[u8],
    more: bool,
    to: &mut W,
) -> Turn
    requires { opened_end opened ≤ length line.now }
    ensures { Started opened more result }
{
    match opened {
        Ok(end) => {
            write_whole(&line[..end], to)?;
            let totals = Totals {
                taken: 0,
                hits: 0,
                steps: 0,
            };
            Ok(Some(unused(0, more, totals)))
        }
        Err(refused) => {
            write_whole(&line[..refused.end], to)?;
            Err(NotListed::BookRefused)
        }
    }
}

// The next bytes of the letter, if there are any more. While some of a part are left, nothing is read; once all are used, the next part is;
// and where no input follows, the end line is written. A listing that is over stays so.
pub fn next<R: Read, W: Write>(turn: Turn, part: &mut [u8], from: &mut R, to: &mut W) -> Turn
    requires { (0 < length part.old) × PartInside turn (length part.old) }
    ensures { Next turn part.old result part.new }
{
    let Some(standing) = turn? else {
        return Ok(None);
    };
    if standing.used < standing.size {
        return Ok(Some(standing));
    }
    if !standing.more {
        write_end(standing.totals, to)?;
        return Ok(None);
    }
    let came = fill(from, part);
    part_of(came, part.len(), standing.totals, to)
}

// What a read brought, as the next part. The last one is shorter; where it has no byte, the letter ended with the part before.
fn part_of<W: Write>(came: Result<usize, NotRead>, room: usize, totals: Totals, to: &mut W) -> Turn
    ensures { PartRead room totals came result }
{
    let Ok(count) = came else {
        return Err(NotListed::LetterNotRead);
    };
    if count == room {
        return Ok(Some(unused(room, true, totals)));
    }
    if count == 0 {
        write_end(totals, to)?;
        return Ok(None);
    }
    Ok(Some(unused(count, false, totals)))
}

// What a call on the rest of a part leads to. Its lines are written before anything else is done.
pub fn after<W: Write>(
    listed: Result<Listed, PartRefused>,
    lines: &[u8],
    standing: Standing,
    to: &mut W,
) -> Turn
    requires { (standing.used + listed_taken listed ≤ standing.size) × (listed_end listed ≤ length lines.now) }
    ensures { AfterCall listed standing result }
{
    match listed {
        Ok(listed) => {
            write_whole(&lines[..listed.end], to)?;
            took(standing, listed.taken, listed.hits, listed.steps)
        }
        Err(PartRefused::TooLong) => {
            write_too_long(standing.totals, to)?;
            Err(NotListed::LetterRefused)
        }
        Err(PartRefused::NotTaken) => Err(NotListed::NotTaken),
    }
}

// Where a letter stands after so many bytes more. A call that takes none would be made again for ever: it ends the listing. A byte brings
// at most 128 hits, and a letter no more steps than bytes, so that no sum comes near 2^64.
fn took(standing: Standing, taken: usize, hits: usize, steps: u64) -> Turn
    requires { standing.used + taken ≤ standing.size }
    ensures { result ≡ after_bytes standing taken hits steps }
{
    if taken == 0 {
        return Err(NotListed::NotTaken);
    }
    let totals = standing.totals;
    Ok(Some(Standing {
        size: standing.size,
        used: standing.used + taken,
        more: standing.more,
        totals: Totals {
            taken: totals.taken.wrapping_add(taken as u64),
            hits: totals.hits.wrapping_add(hits as u64),
            steps: totals.steps.wrapping_add(steps),
        },
    }))
}
