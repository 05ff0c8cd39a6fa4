// The entries of phrases and pieces in the table memory: what stands in them, and how they are written.
ghost use Rattle.std.specs.Prelude.{◌≡◌, ◌+◌, ◌-◌, ◌%◌, ◌<◌};
ghost use Rattle.tables.specs.Reads.{Whole};
ghost use Rattle.tables.specs.Layout.{room_for_pieces, room_for_phrases};
ghost use Rattle.survey.specs.Entries.{ends_for, with_phrase, with_piece};

use counters::{Number, Rank};
use tables::layout::{
    ENDS, IS_FIRST, IS_LAST, PHRASE, PHRASE_LENGTH, PIECE, PIECE_LENGTH, RANK, RIGHTS, SPAN,
};

// The entry of a piece, but for its link.
#[derive(Clone, Copy)]
pub struct Entry {
    pub delay: u16,
    pub span: u16,
    pub rank: Rank,
    pub ends: u8,
}

// How much later than the piece before it a piece can end at the earliest: by the least of its gap and its keyword. It is kept
// in two bytes whatever a book says; of a sound book nothing is cut off.
pub fn delay_of(least: u16, count: u8) -> u16
    ensures { result ≡ (least + count) % 65536 }
{
    least.wrapping_add(u16::from(count))
}

// How much later than it opens the window of a bounded gap closes.
pub fn span_of(least: u16, most: u16) -> u16
    ensures { result ≡ most - least }
{
    most.saturating_sub(least)
}

// Which end of its phrase a piece stands at.
pub fn ends_of(last: bool, first: bool) -> u8
    ensures { result ≡ ends_for last first }
{
    match (last, first) {
        (true, true) => IS_LAST + IS_FIRST,
        (true, false) => IS_LAST,
        (false, true) => IS_FIRST,
        (false, false) => 0,
    }
}

// Kept, no plainer: with `struct Filled<'a> { bytes: &'a mut [u8] }` each method would need one clause more: that the borrow keeps its ghost name.
// Writes the entry of the phrase of this rank.
pub fn put_phrase(t: &mut [u8], rank: Rank, number: Number, rights: u8)
    requires { (Whole t.old) × (rank.0 < room_for_phrases) }
    ensures { t.new ≡ with_phrase rank.0 number.0 rights t.old }
{
    let at = PHRASE + PHRASE_LENGTH * rank.index();
    lent::put2(t, at, number.value());
    t[at + RIGHTS] = rights;
}

// Writes the entry of piece p. Its link is left as it is.
pub fn put_piece(t: &mut [u8], p: usize, entry: Entry)
    requires { (Whole t.old) × (p < room_for_pieces) }
    ensures { t.new ≡ with_piece p entry t.old }
{
    let at = PIECE + PIECE_LENGTH * p;
    lent::put2(t, at, entry.delay);
    lent::put2(t, at + SPAN, entry.span);
    t[at + RANK] = entry.rank.value();
    t[at + ENDS] = entry.ends;
}
