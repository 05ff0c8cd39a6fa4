// judge: record by record from the first, until one is refused or the book stops.
ghost use Rattle.std.specs.Prelude.{◌≡◌, ◌<◌, length};
ghost use Rattle.records.specs.Prefixes.{Inside};
ghost use Rattle.book.specs.Judging.{Small, turn_at};
ghost use Rattle.book.specs.Answers.{JudgedRight};

use crate::answers::Accepted;
use crate::gaps::{bounded, open};
use crate::phrases::phrase;
use crate::progress::{Reached, Stage, Tally};
use crate::turns::{end, header, keyword, stop};
use counters::Number;
use records::{Found, Reader, Record, Refusal, Refused};

// What comes of what was found at an offset. The kind is looked at before anything else.
#[tactic(auto, unfolding(crate::specs::Judging::turn_at, crate::specs::Judging::found_turn, crate::specs::Judging::record_turn))]
fn turn_at(
    book: &[u8],
    at: usize,
    reached: Reached,
    found: Result<Found, Refused>,
) -> Result<Reached, Refusal>
    requires small { Small reached.tally }
    requires at_in_bounds { at < length book.now }
    requires inside { Inside book.now found }
    ensures { result ≡ turn_at book.now at reached.stage reached.tally found }
{
    if !reached.stage.allows(book[at]) {
        return Err(Refusal::Kind);
    }
    let tally = reached.tally;
    let found = found?;
    match found.says {
        Record::Header { edition } => header(tally, edition),
        Record::Phrase { number, rights } => phrase(tally, number, rights),
        Record::Bounded { least, most } => bounded(tally, least, most),
        Record::Open { least } => open(tally, least),
        Record::Keyword { start, length } => keyword(book, tally, start, length, at),
        Record::End { count } => end(tally, count),
    }
}

// Whether the bytes are a book within the limits, or why and where they are refused. Nothing but the book is read.
pub fn judge(book: &[u8]) -> Result<Accepted, Refused>
    ensures { JudgedRight book.now result }
{
    let mut reader = Reader { book, at: 0 };
    let mut reached = Reached {
        stage: Stage::Start,
        tally: Tally {
            phrases: 0,
            last: Number::NONE,
            own: 0,
            pieces: 0,
            prefixes: 0,
        },
    };
    while reader.at < book.len() {
        let at = reader.at;
        let found = reader.next();
        reached = turn_at(book, at, reached, found).map_err(|why| Refused { why, at })?;
    }
    stop(reached, reader.at)
}
