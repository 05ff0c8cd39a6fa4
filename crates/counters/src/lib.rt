// Counters that cannot be taken for each other: states of the automaton, places in the letter and phrase numbers, and
// beside these three the rank of a phrase in its book. The number inside is private: only these functions make or read one.
#![tactic(auto)]

ghost use Rattle.std.specs.Prelude.{◌≡◌, ◌+◌, ◌≤◌, ◌<◌, ltb};

// The number of a state of the automaton.
// Kept, holds: `State::numbered`, which is given any number of two bytes; so the bound of a state stands in clauses (`state.0 < room_for_states`).
#[derive(Clone, Copy, PartialEq, Eq, PartialOrd, Ord)]
pub struct State(u16);

// A place in the letter: the number of bytes read. Closing places pass 32 bits.
// Kept, holds: `Place::at` and `later`, which give closing places too; so that a place lies in the letter stands in clauses (`InLetter`).
#[derive(Clone, Copy, PartialEq, Eq, PartialOrd, Ord)]
pub struct Place(u64);

// The number of a phrase, as the book has it.
#[derive(Clone, Copy, PartialEq, Eq, PartialOrd, Ord)]
pub struct Number(u16);

// The index of a phrase in its book, the first being 0.
#[derive(Clone, Copy, PartialEq, Eq, PartialOrd, Ord)]
pub struct Rank(u8);

// Kept, no plainer: `place.bytes()` and `state.index()` say what the number counts, which `u64::from(place)` and `usize::from(state)` would not.
impl State {
    // The empty state, which is numbered first.
    pub fn root() -> State
        ensures { result.0 ≡ 0 }
    {
        State(0)
    }

    pub fn numbered(n: u16) -> State
        ensures { result.0 ≡ n }
    {
        State(n)
    }

    pub fn number(self) -> u16
        ensures { result ≡ self.0 }
    {
        self.0
    }

    // The same as an index, with its bound.
    pub fn index(self) -> usize
        ensures { (result ≡ self.0) × (result < 65536) }
    {
        usize::from(self.0)
    }
}

impl Place {
    // The place before the first byte.
    pub fn start() -> Place
        ensures { result.0 ≡ 0 }
    {
        Place(0)
    }

    pub fn at(n: u64) -> Place
        ensures { result.0 ≡ n }
    {
        Place(n)
    }

    // How many bytes were read up to here.
    pub fn bytes(self) -> u64
        ensures { result ≡ self.0 }
    {
        self.0
    }

    // The place after one more byte.
    pub fn next(self) -> Place
        requires { self.0 < 18446744073709551615 }
        ensures { result.0 ≡ self.0 + 1 }
    {
        Place(self.0 + 1)
    }

    // The place so many bytes later.
    pub fn later(self, by: u64) -> Place
        requires { self.0 + by ≤ 18446744073709551615 }
        ensures { result.0 ≡ self.0 + by }
    {
        Place(self.0 + by)
    }
}

impl Number {
    // What stands where there is no phrase: in a book no phrase has this number.
    pub const NONE: Number = Number(0);

    pub fn of(n: u16) -> Number
        ensures { result.0 ≡ n }
    {
        Number(n)
    }

    pub fn value(self) -> u16
        ensures { result ≡ self.0 }
    {
        self.0
    }
}

impl Rank {
    pub fn of(n: u8) -> Rank
        ensures { result.0 ≡ n }
    {
        Rank(n)
    }

    pub fn value(self) -> u8
        ensures { result ≡ self.0 }
    {
        self.0
    }

    // The same as an index, with its bound.
    pub fn index(self) -> usize
        ensures { (result ≡ self.0) × (result < 256) }
    {
        usize::from(self.0)
    }
}
