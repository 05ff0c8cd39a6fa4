// Why build refuses, and document 01's number and offset of each answer, which stand in the specification.
ghost use Rattle.std.specs.Prelude.{◌≡◌, Err};
ghost use Rattle.builder.specs.declared.answers.BuildError.TheVariants.{Refused};
ghost use Rattle.builder.specs.Answers.{said_by};

use records::Refused;

#[derive(Clone, Copy, Debug, PartialEq, Eq)]
pub enum BuildError {
    // the lent memory is below the published size and was not touched
    TooSmall,
    // the book is refused: the lent memory is zero up to the published size
    Refused(Refused),
}

impl From<Refused> for BuildError {
    ghost from_gives = { λ refused error. error ≡ Refused refused };

    fn from(refused: Refused) -> BuildError {
        BuildError::Refused(refused)
    }
}

// Kept, holds: `said_by` has a number and an offset for each answer, and a From could give only one of them.
impl BuildError {
    // Document 01's number of the refusal.
    pub fn number(self) -> u8
        ensures { result ≡ (said_by (Err self)).number }
    {
        match self {
            BuildError::TooSmall => 1,
            BuildError::Refused(refused) => u8::from(refused.why),
        }
    }

    // The offset that document 01 has beside it.
    pub fn offset(self) -> usize
        ensures { result ≡ (said_by (Err self)).offset }
    {
        match self {
            BuildError::TooSmall => 0,
            BuildError::Refused(refused) => refused.at,
        }
    }
}

// Document 01's number of what build answers.
pub fn number(answer: Result<usize, BuildError>) -> u8
    ensures { result ≡ (said_by answer).number }
{
    match answer {
        Ok(_) => 0,
        Err(why) => why.number(),
    }
}

// The offset that document 01 has beside it: of a book that is built, its length.
pub fn offset(answer: Result<usize, BuildError>) -> usize
    ensures { result ≡ (said_by answer).offset }
{
    match answer {
        Ok(length) => length,
        Err(why) => why.offset(),
    }
}
