// What a phrase record does: its number and rights code in range, the number above the one before, and room for one phrase more.
ghost use Rattle.std.specs.Prelude.{◌≡◌, ◌&&◌};
ghost use Rattle.format.specs.Limits.{most_number, most_rights};
ghost use Rattle.format.specs.Faults.{between};
ghost use Rattle.book.specs.Judging.{phrase_turn};

use crate::limits::{MOST_PHRASES, MOST_RIGHTS};
use crate::progress::{Reached, Stage, Tally};
use counters::Number;
use records::Refusal;

// Are a phrase's number and rights code in range? No number of two bytes is above the largest phrase number.
#[tactic(auto, unfolding(format::specs::Faults::between))]
fn in_range(number: Number, rights: u8) -> bool
    ensures { result ≡ between 1 most_number number.0 && between 1 most_rights rights }
{
    1 <= number.value() && 1 <= rights && rights <= MOST_RIGHTS
}

// A phrase record: a further phrase, which has no pieces yet.
#[tactic(auto, unfolding(crate::specs::Judging::phrase_turn))]
pub fn phrase(mut tally: Tally, number: Number, rights: u8) -> Result<Reached, Refusal>
    ensures { result ≡ phrase_turn tally number rights }
{
    if !in_range(number, rights) {
        return Err(Refusal::Field);
    }
    if number <= tally.last {
        return Err(Refusal::Order);
    }
    if MOST_PHRASES <= tally.phrases {
        return Err(Refusal::Many);
    }
    tally.phrases += 1;
    tally.last = number;
    tally.own = 0;
    Ok(Reached {
        stage: Stage::Named,
        tally,
    })
}
