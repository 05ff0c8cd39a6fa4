// The phrases that end at a place, one mark for each, and their reports read off in the order of the marks.
#![tactic(auto)]

ghost use Rattle.std.specs.Prelude.{◌≡◌, [], ◌∷◌, ◌+◌, ◌*◌, ◌≤◌, ◌<◌, length};
ghost use Rattle.counters.specs.Counters.{InLetter};
ghost use Rattle.lent.specs.Numbers.{with_bytes};
ghost use Rattle.tables.specs.Layout.{room_for_phrases};
ghost use Rattle.tables.specs.Reads.{phrase_count_in};
ghost use Rattle.bits.specs.Bits.{Finds};
ghost use Rattle.marks.specs.Marked.{no_marks, is_marked, with_mark};
ghost use Rattle.marks.specs.Reported.{entries, room_with, reported};

use counters::{Place, Rank};
use tables::Tables;

// How many ranks have a mark.
const RANKS: usize = tables::layout::ROOM_FOR_PHRASES;

// A mark for each phrase of a book: bit j of the number is that of the phrase of rank j.
#[derive(Clone, Copy)]
pub struct Marks {
    bits: u128,
}

impl Marks {
    pub fn none() -> Marks
        ensures { result ≡ no_marks }
    {
        Marks { bits: 0 }
    }

    // The marks with one more. Where a phrase is marked already nothing changes, so each is reported once.
    pub fn with(self, rank: Rank) -> Marks
        ensures { result ≡ with_mark self rank.0 }
    {
        let j = rank.index();
        if j < RANKS {
            return Marks {
                bits: self.bits | (1 << j),
            };
        }
        self
    }

    // The first rank from j on that is marked, if there is one.
    fn next(self, j: usize) -> Option<usize>
        requires { j ≤ room_for_phrases }
        ensures { Finds (is_marked self) room_for_phrases j result }
    {
        bits::next(self.bits, j)
    }
}

// Writes one report: the phrase number, then the place. Places up to the largest fit 32 bits.
fn put_report(t: &Tables, room: &mut [u32], written: usize, rank: Rank, place: Place)
    requires { (2 * written + 2 ≤ length room.old) × (rank.0 < room_for_phrases) × (InLetter place.0) }
    ensures { room.new ≡ with_bytes room.old (2 * written) (entries t.now place.0 (rank.0 ∷ [])) }
{
    room[2 * written] = u32::from(t.phrase_number(rank).value());
    room[2 * written + 1] = place.bytes() as u32;
}

// Writes the reports of a place behind those written before: the marks are read off from the lowest rank to the highest,
// and the ranks are in the order of the phrase numbers. Answers how many reports the room then has.
pub fn put_reports(
    t: &Tables,
    room: &mut [u32],
    written: usize,
    marks: Marks,
    place: Place,
) -> usize
    requires { (phrase_count_in t.now ≤ room_for_phrases) × (2 * (written + phrase_count_in t.now) ≤ length room.old) × (InLetter place.0) }
    ensures { room_with result room.new ≡ reported t.now place.0 marks (room_with written room.old) }
{
    let phrases = t.phrase_count();
    let mut count = written;
    let mut from = 0;
    while let Some(rank) = marks.next(from)
        && rank < phrases
    {
        put_report(t, room, count, Rank::of(rank as u8), place);
        count += 1;
        from = rank + 1;
    }
    count
}
