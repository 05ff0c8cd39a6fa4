// The rights code of a phrase, found by the phrase number. The phrases stand in the tables by their rank.
ghost use Rattle.std.specs.Prelude.{◌≡◌, ◌≤◌, ◌<◌, eqb};
ghost use Rattle.tables.specs.Layout.{room_for_phrases};
ghost use Rattle.tables.specs.Reads.{phrase_count_in, phrase_number_in, phrase_rights_in};
ghost use Rattle.lines.specs.Rights.{rights_in};

use counters::{Number, Rank};
use tables::Tables;

// Does the phrase with a rank have a number?
fn has_number(t: &Tables, j: usize, number: Number) -> bool
    requires { j < room_for_phrases }
    ensures { result ≡ eqb (phrase_number_in t.now j) number.0 }
{
    t.phrase_number(Rank::of(j as u8)) == number
}

fn code_at(t: &Tables, j: usize) -> u64
    requires { j < room_for_phrases }
    ensures { result ≡ phrase_rights_in t.now j }
{
    u64::from(t.phrase_rights(Rank::of(j as u8)))
}

// The rights code of the first phrase with a number, 0 where the tables have none. There are at most 128 phrases to look at.
// Kept, holds: `rights_in`, by which a hit line has 0 where the tables have no such phrase.
pub(crate) fn rights_of(t: &Tables, number: Number) -> u64
    requires { phrase_count_in t.now ≤ room_for_phrases }
    ensures { result ≡ rights_in t.now number.0 }
{
    let phrases = t.phrase_count();
    for j in 0..phrases {
        if has_number(t, j, number) {
            return code_at(t, j);
        }
    }
    0
}
