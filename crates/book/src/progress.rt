// How far a book has been read, and what judge counts of what it has read.
ghost use Rattle.std.specs.Prelude.{◌≡◌};
ghost use Rattle.book.specs.Judging.{allowed_of, may_stop_at};

use counters::Number;
use records::Kind;

// What was read last.
#[derive(Clone, Copy, Debug, PartialEq, Eq)]
pub enum Stage {
    // nothing
    Start,
    // the header
    Headed,
    // a phrase record
    Named,
    // a gap
    Gapped,
    // a keyword
    Worded,
    // the end record
    Ended,
}

// What is counted of the records read so far, and one number.
#[derive(Clone, Copy)]
pub struct Tally {
    // The phrases, the last one perhaps not whole, and the number of that one, `NONE` where there is none.
    pub phrases: usize,
    pub last: Number,
    // The whole pieces of the last phrase, and those of the book.
    pub own: usize,
    pub pieces: usize,
    // The different nonempty prefixes of the keywords.
    pub prefixes: usize,
}

// How far a book has been read.
#[derive(Clone, Copy)]
pub struct Reached {
    pub stage: Stage,
    pub tally: Tally,
}

impl Stage {
    // May a record whose kind is this byte stand here? After a keyword the phrase may end, and so may the book.
    #[tactic(auto, unfolding(crate::specs::Judging::allowed_of, format::specs::Faults::is_gap, format::specs::Faults::is_keyword, records::specs::Kinds::known))]
    pub fn allows(self, byte: u8) -> bool
        ensures { result ≡ allowed_of self byte }
    {
        let Some(kind) = Kind::of(byte) else {
            return false;
        };
        match self {
            Stage::Start => matches!(kind, Kind::Header),
            Stage::Headed => matches!(kind, Kind::Phrase),
            Stage::Named => matches!(kind, Kind::Bounded | Kind::Open),
            Stage::Gapped => matches!(kind, Kind::Keyword { .. }),
            Stage::Worded => !matches!(kind, Kind::Header | Kind::Keyword { .. }),
            Stage::Ended => false,
        }
    }

    // The book may stop where the end record has been read, and nowhere else.
    pub fn may_stop(self) -> bool
        ensures { result ≡ may_stop_at self }
    {
        matches!(self, Stage::Ended)
    }
}
