// What a gap's record does: its bounds in range, least not above most, and room for one piece more.
ghost use Rattle.std.specs.Prelude.{◌≡◌, ◌||◌, leb};
ghost use Rattle.format.specs.Limits.{most_pieces_of_phrase, most_pieces};
ghost use Rattle.book.specs.Judging.{gap_turn, bounded_turn, open_turn};

use crate::limits::{MOST_LEAST, MOST_MOST, MOST_PIECES, MOST_PIECES_OF_PHRASE};
use crate::progress::{Reached, Stage, Tally};
use records::Refusal;

// Would one piece more be the ninth of its phrase or the 257th of the book?
fn no_room(tally: Tally) -> bool
    ensures { result ≡ leb most_pieces_of_phrase tally.own || leb most_pieces tally.pieces }
{
    tally.own >= MOST_PIECES_OF_PHRASE || tally.pieces >= MOST_PIECES
}

// A gap whose fields stand. It is the first record of its piece.
#[tactic(auto, unfolding(crate::specs::Judging::gap_turn))]
fn gap(tally: Tally) -> Result<Reached, Refusal>
    ensures { result ≡ gap_turn tally }
{
    if no_room(tally) {
        return Err(Refusal::Many);
    }
    Ok(Reached {
        stage: Stage::Gapped,
        tally,
    })
}

// A bounded gap.
#[tactic(auto, unfolding(crate::specs::Judging::bounded_turn))]
pub fn bounded(tally: Tally, least: u16, most: u16) -> Result<Reached, Refusal>
    ensures { result ≡ bounded_turn tally least most }
{
    if MOST_LEAST < least || MOST_MOST < most {
        return Err(Refusal::Field);
    }
    if most < least {
        return Err(Refusal::Crossed);
    }
    gap(tally)
}

// An open gap, the same without a most.
#[tactic(auto, unfolding(crate::specs::Judging::open_turn))]
pub fn open(tally: Tally, least: u16) -> Result<Reached, Refusal>
    ensures { result ≡ open_turn tally least }
{
    if MOST_LEAST < least {
        return Err(Refusal::Field);
    }
    gap(tally)
}
