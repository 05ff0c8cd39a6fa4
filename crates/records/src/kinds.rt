// What a record's kind says: what the record is, how long its body is, and where its fields stand.
ghost use Rattle.std.specs.Prelude.{◌≡◌, ◌<◌};
ghost use Rattle.format.specs.Faults.{body_length};
ghost use Rattle.records.specs.Kinds.{byte_of, Reads};

pub const HEADER_KIND: u8 = 0x01;

pub const PHRASE_KIND: u8 = 0x02;

pub const BOUNDED_KIND: u8 = 0x03;

pub const OPEN_KIND: u8 = 0x04;

pub const END_KIND: u8 = 0x7F;

// The kind of a keyword is 80 hex and its length: 1 for the shortest, 32 for the longest.
const KEYWORD_BASE: u8 = 0x80;

const SHORTEST_KEYWORD: u8 = KEYWORD_BASE + 1;

const LONGEST_KEYWORD: u8 = KEYWORD_BASE + 32;

// How many bytes the body of each kind has.
const HEADER_BODY: usize = 1;

const PHRASE_BODY: usize = 3;

const BOUNDED_BODY: usize = 4;

const OPEN_BODY: usize = 2;

const END_BODY: usize = 2;

// Where the last field of a phrase and of a bounded gap stands, counted from the kind byte. The first one stands behind it.
pub const RIGHTS_AT: usize = 3;

pub const MOST_AT: usize = 3;

// What a record is.
#[derive(Clone, Copy, Debug, PartialEq, Eq)]
pub enum Kind {
    Header,
    Phrase,
    Bounded,
    Open,
    // a keyword of so many bytes
    Keyword { length: u8 },
    End,
}

impl Kind {
    // The kind that a byte says, where it is one of the table.
    #[tactic(auto, unfolding(crate::specs::Kinds::known))]
    pub fn of(byte: u8) -> Option<Kind>
        ensures { Reads byte result }
    {
        match byte {
            HEADER_KIND => Some(Kind::Header),
            PHRASE_KIND => Some(Kind::Phrase),
            BOUNDED_KIND => Some(Kind::Bounded),
            OPEN_KIND => Some(Kind::Open),
            END_KIND => Some(Kind::End),
            SHORTEST_KEYWORD..=LONGEST_KEYWORD => Some(Kind::Keyword {
                length: byte - KEYWORD_BASE,
            }),
            _ => None,
        }
    }

    // How many bytes the body of such a record has.
    #[tactic(auto, unfolding(format::specs::Faults::body_length))]
    pub fn body(self) -> usize
        ensures { (result ≡ body_length (byte_of self)) × (result < 256) }
    {
        match self {
            Kind::Header => HEADER_BODY,
            Kind::Phrase => PHRASE_BODY,
            Kind::Bounded => BOUNDED_BODY,
            Kind::Open => OPEN_BODY,
            Kind::Keyword { length } => usize::from(length),
            Kind::End => END_BODY,
        }
    }
}
