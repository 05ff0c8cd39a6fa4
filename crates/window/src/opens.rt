// What opens at a place: the closing place of each piece that waits there is renewed, and nothing waits there any more.
ghost use Rattle.std.specs.Prelude.{◌≡◌, ◌≤◌, ◌<◌, ltb};
ghost use Rattle.counters.specs.Counters.{InLetter};
ghost use Rattle.bits.specs.Bits.{Finds};
ghost use Rattle.tables.specs.Layout.{room_for_pieces};
ghost use Rattle.running.specs.Waiting.{slots};
ghost use Rattle.running.specs.Reads.{WholeRunning, closing_place_in, waits_in};
ghost use Rattle.window.specs.Opening.{closes_after, with_closing, window_opened, windows_opened, slot_emptied, slot_opened};

use crate::closing::Window;
use counters::Place;
use running::layout::{CLOSING, CLOSING_LENGTH, FLAG, NEVER, RING, SLOT_LENGTH};
use tables::Tables;
use tables::layout::NEVER_CLOSES;

// A slot is read by words of 8 bytes: how many pieces have their bits in a word, and how many words a slot has.
const WORD: usize = 8;

const PIECES_IN_WORD: usize = 64;

const WORDS: usize = 4;

// The last place of a window that opens at a place. It may pass the largest place, so 32 bits don't hold it.
fn closing_place(span: u16, opened: Place) -> Place
    requires { InLetter opened.0 }
    ensures { result.0 ≡ closes_after span opened.0 }
{
    if span == NEVER_CLOSES {
        return Place::at(NEVER);
    }
    opened.later(u64::from(span))
}

// The window of a piece, as the memory has it.
fn window_of(m: &[u8], piece: usize) -> Window
    requires { (WholeRunning m.now) × (piece < room_for_pieces) }
    ensures { result.closes.0 ≡ closing_place_in m.now piece }
{
    Window {
        closes: Place::at(lent::get8(m, CLOSING + CLOSING_LENGTH * piece)),
    }
}

// Writes the window of a piece.
// Kept, no plainer: a struct that holds m: &mut [u8] needs a clause on its ghost name in every method, where WholeRunning m.old stands now.
fn put_window(m: &mut [u8], piece: usize, window: Window)
    requires { (WholeRunning m.old) × (piece < room_for_pieces) }
    ensures { m.new ≡ with_closing m.old piece window.closes.0 }
{
    lent::put8(m, CLOSING + CLOSING_LENGTH * piece, window.closes.bytes());
}

// The place is past the closing place of a piece. That is 0 where no window of it has opened, and every place is past it.
pub fn is_past(m: &[u8], piece: usize, place: Place) -> bool
    requires { (WholeRunning m.now) × (piece < room_for_pieces) }
    ensures { result ≡ ltb (closing_place_in m.now piece) place.0 }
{
    let window = window_of(m, piece);
    window.closes < place
}

// A window of a piece opens at a place.
fn open_window(t: &Tables, m: &mut [u8], piece: usize, place: Place)
    requires { (WholeRunning m.old) × (piece < room_for_pieces) × (InLetter place.0) }
    ensures { m.new ≡ window_opened t.now place.0 m.old piece }
{
    let closes = closing_place(t.span(piece), place);
    let mut window = window_of(m, piece);
    window.renew(closes);
    put_window(m, piece, window);
}

// The first piece from p on that waits in a slot, if one does: the slot is read by words.
fn next_waiting(m: &[u8], slot: usize, p: usize) -> Option<usize>
    requires { (WholeRunning m.now) × (slot < slots) × (p ≤ room_for_pieces) }
    ensures { Finds (waits_in m.now slot) room_for_pieces p result }
{
    let mut j = p % PIECES_IN_WORD;
    for word in p / PIECES_IN_WORD..WORDS {
        let bits = lent::get8(m, RING + SLOT_LENGTH * slot + WORD * word);
        if let Some(next) = bits::next(bits as u128, j) {
            return Some(PIECES_IN_WORD * word + next);
        }
        j = 0;
    }
    None
}

// A window opens of each piece that waits in a slot, the lowest piece first.
fn open_windows(t: &Tables, m: &mut [u8], slot: usize, place: Place)
    requires { (WholeRunning m.old) × (slot < slots) × (InLetter place.0) }
    ensures { m.new ≡ windows_opened t.now place.0 (waits_in m.old slot) m.old room_for_pieces }
{
    let mut from = 0;
    while let Some(piece) = next_waiting(m, slot, from) {
        open_window(t, m, piece, place);
        from = piece + 1;
    }
}

// Nothing waits in a slot any more: its bits and its flag become zero.
fn empty_slot(m: &mut [u8], slot: usize)
    requires { (WholeRunning m.old) × (slot < slots) }
    ensures { m.new ≡ slot_emptied m.old slot }
{
    lent::clear(m, RING + SLOT_LENGTH * slot, SLOT_LENGTH);
    m[FLAG + slot] = 0;
}

// The windows that wait in the slot of a place open, and the slot is empty. Most slots have no flag, and nothing is done.
pub fn open_slot(t: &Tables, m: &mut [u8], place: Place)
    requires { (WholeRunning m.old) × (InLetter place.0) }
    ensures { m.new ≡ slot_opened t.now m.old place.0 }
{
    let slot = running::slot_of(place);
    if m[FLAG + slot] == 0 {
        return;
    }
    open_windows(t, m, slot, place);
    empty_slot(m, slot);
}
