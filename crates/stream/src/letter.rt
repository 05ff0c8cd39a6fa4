// The letter, turn after turn: the bytes that are next, a call on them, and its lines.
ghost use Rattle.std.specs.Prelude.{◌≤◌, length};
ghost use Rattle.pipes.specs.Letter.{PartInside, TurnWithin};
ghost use Rattle.stream.specs.Ends.{EndFrom};

use listing::LONGEST_LINE;
use pipes::{NotListed, Standing, Turn, after, next};
use std::io::{Read, Write};

// The bytes of a part; only the last one is shorter.
const PART: usize = 4096;

// A turn takes a byte or more, and there are 4,294,967,295 places, so that no listing has more turns.
const MOST_TURNS: usize = 4294967296;

// The reports that one call has room for: as many as a book can have phrases, so that a call never lacks room for the next byte.
const REPORTS: usize = tables::layout::ROOM_FOR_PHRASES;

// A report is two numbers.
const ROOM: usize = 2 * REPORTS;

const LINES: usize = LONGEST_LINE * REPORTS;

// Lists the letter to its end. A listing that is over at first ends as it did.
pub(crate) fn list_letter<R: Read, W: Write>(
    tables: &[u8],
    running: &mut [u8],
    first: Turn,
    from: &mut R,
    to: &mut W,
) -> Result<(), NotListed>
    requires { PartInside first 0 }
    ensures { EndFrom first result }
{
    let mut part = [0u8; PART];
    let mut turn = first;
    for _ in 0..MOST_TURNS {
        let Some(offered) = next(turn, &mut part, from, to)? else {
            return Ok(());
        };
        turn = list_some(tables, running, &part, offered, to);
    }
    turn?;
    Err(NotListed::NotTaken)
}

// One call, on what is left of the part, and the lines of its hits.
fn list_some<W: Write>(
    tables: &[u8],
    running: &mut [u8],
    part: &[u8],
    standing: Standing,
    to: &mut W,
) -> Turn
    requires { (standing.used ≤ standing.size) × (standing.size ≤ length part.now) }
    ensures { TurnWithin standing result }
{
    let used = standing.used;
    let size = standing.size;
    let mut room = [0u32; ROOM];
    let mut lines = [0u8; LINES];
    let listed = parts::list_part(tables, running, &part[used..size], &mut room, &mut lines);
    after(listed, &lines, standing, to)
}
