// Why a book is refused. Document 01's number for each case stands in the specification.
ghost use Rattle.std.specs.Prelude.{◌≡◌};
ghost use Rattle.format.specs.Refusals.{refusal_number};
ghost use Rattle.records.specs.Refusals.{reason_of};

#[derive(Clone, Copy, Debug, PartialEq, Eq)]
pub enum Refusal {
    // the book ends inside a record or before the end record is complete
    Cut = 2,
    // the kind is unknown, or not allowed at this point
    Kind = 3,
    // a field is out of its range
    Field = 4,
    // least is above most
    Crossed = 5,
    // the phrase number is not above the one before
    Order = 6,
    // the 129th phrase, the ninth piece of a phrase or the 257th of the book
    Many = 7,
    // the end record's number is not the number of phrases
    Total = 8,
    // this keyword brings the prefixes above 2,047
    Full = 9,
}

// Why a book is refused, and the offset of the record that is refused.
#[derive(Clone, Copy, Debug, PartialEq, Eq)]
pub struct Refused {
    pub why: Refusal,
    pub at: usize,
}

impl From<Refused> for Refusal {
    ghost from_gives = { λ refused why. why ≡ refused.why };

    fn from(refused: Refused) -> Refusal {
        refused.why
    }
}

// Document 01's number for the reason.
impl From<Refusal> for u8 {
    ghost from_gives = { λ why number. number ≡ refusal_number (reason_of why) };

    fn from(why: Refusal) -> u8 {
        why as u8
    }
}
