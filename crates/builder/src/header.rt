// The head of built tables: how much there is of everything, the book's mark and the tag.
ghost use Rattle.std.specs.Prelude.{◌≡◌, ◌≤◌};
ghost use Rattle.tables.specs.Layout.{room_for_states, room_for_pieces, room_for_phrases};
ghost use Rattle.tables.specs.Reads.{Whole};
ghost use Rattle.builder.specs.Passes.{with_header};

use tables::layout::{MARK, PHRASES, PIECES, STATES, TABLES_TAG, TAG};

// Kept, no plainer: with `struct Filled<'a> { bytes: &'a mut [u8] }` each method would need one clause more: that the borrow keeps its ghost name.
// Writes the head. The tag comes last: tables have it only when they are whole.
pub fn put_header(t: &mut [u8], states: usize, pieces: usize, phrases: usize, mark: u64)
    requires whole { Whole t.old }
    requires states_le_room_for_states { (states ≤ room_for_states) × (pieces ≤ room_for_pieces) × (phrases ≤ room_for_phrases) }
    ensures { t.new ≡ with_header states pieces phrases mark t.old }
{
    lent::put2(t, STATES, states as u16);
    lent::put2(t, PIECES, pieces as u16);
    lent::put2(t, PHRASES, phrases as u16);
    lent::put8(t, MARK, mark);
    lent::put8(t, TAG, TABLES_TAG);
}
