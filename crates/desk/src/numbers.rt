// Document 01's numbers of each answer.
ghost use Rattle.std.specs.Prelude.{◌≡◌};
ghost use Rattle.builder.specs.Answers.{said_by};
ghost use Rattle.scanner.specs.Answers.{memory_number, feed_number, begun_number, said};
ghost use Rattle.desk.specs.Answers.{built_said, fed_said};

use builder::BuildError;
use scanner::{FeedError, MemoryError, Took};

// What build answers: the number, and the offset of the record that it is about.
// Kept, holds: the C interface, in which a number tells a refusal
#[repr(C)]
#[derive(Clone, Copy)]
pub struct TsuvrankheBuilt {
    pub number: u32,
    pub offset: usize,
}

// What feed answers: the number, the bytes taken, the reports written and the failure steps.
// Kept, holds: the C interface, in which a number tells a refusal
#[repr(C)]
#[derive(Clone, Copy)]
pub struct TsuvrankheFed {
    pub number: u32,
    pub taken: usize,
    pub reports: usize,
    pub steps: u64,
}

impl From<Result<usize, BuildError>> for TsuvrankheBuilt {
    ghost from_gives = { λ answer given. built_said given ≡ said_by answer };

    fn from(answer: Result<usize, BuildError>) -> TsuvrankheBuilt {
        let number = builder::number(answer);
        let offset = builder::offset(answer);
        TsuvrankheBuilt {
            number: u32::from(number),
            offset,
        }
    }
}

impl From<Result<Took, FeedError>> for TsuvrankheFed {
    ghost from_gives = { λ answer given. fed_said given ≡ said answer };

    fn from(answer: Result<Took, FeedError>) -> TsuvrankheFed {
        match answer {
            Ok(took) => TsuvrankheFed {
                number: 0,
                taken: took.taken,
                reports: took.reports,
                steps: took.steps,
            },
            Err(why) => TsuvrankheFed {
                number: feed_number(why),
                taken: 0,
                reports: 0,
                steps: 0,
            },
        }
    }
}

// The number of what begin answers.
// Kept, holds: the C interface, in which a number tells a refusal
pub fn begun_number(answer: Result<(), MemoryError>) -> u32
    ensures { result ≡ begun_number answer }
{
    match answer {
        Ok(()) => 0,
        Err(why) => memory_number(why),
    }
}

// The number of a refusal of the lent memories, by begin or feed.
fn memory_number(why: MemoryError) -> u32
    ensures { result ≡ memory_number why }
{
    match why {
        MemoryError::TooSmall => 1,
        MemoryError::NotPassed => 12,
    }
}

// The number of a refused feed.
fn feed_number(why: FeedError) -> u32
    ensures { result ≡ feed_number why }
{
    match why {
        FeedError::Memory(why) => memory_number(why),
        FeedError::NoRoom => 10,
        FeedError::TooLong => 11,
    }
}
