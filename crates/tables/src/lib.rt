// The table memory: what is read from it, field by field. Every reader is safe on any bytes of the published size.
#![tactic(auto)]

ghost use Rattle.std.specs.Prelude.{◌≡◌, ◌+◌, ◌*◌, ◌≤◌, ◌<◌, length};
ghost use Rattle.format.specs.Faults.{between as between_of};
ghost use Rattle.tables.specs.Layout.{tables_size, room_for_states, room_for_pieces, room_for_phrases};
ghost use Rattle.tables.specs.Reads.{Whole, state_count_in, dense_in, piece_count_in, phrase_count_in, mark_in};
ghost use Rattle.tables.specs.Reads.{column_in, cell_in, depth_in, gain_in};
ghost use Rattle.tables.specs.Reads.{info_in, out_in, label_in, first_child_in, ending_in, first_link_in, back_in};
ghost use Rattle.tables.specs.Reads.{delay_in, span_in, link_in, rank_in, ends_in, onward_in, last_in, first_in, as_link};
ghost use Rattle.tables.specs.Reads.{phrase_number_in, phrase_rights_in};
ghost use Rattle.tables.specs.Passing.{counts_pass, tables_pass};

use counters::{Number, Rank, State};
use std::marker::Model;

pub mod layout; // layout.rt: where each region begins

// The published size of table memory: a caller lends at least so many bytes.
pub fn size() -> usize
    ensures { result ≡ tables_size }
{
    layout::SIZE
}

// Whether a number lies between two others, both included.
// Kept, proof: with (low..=high).contains(&n) it was left open that the library's order of numbers, partial_le, is the test leb.
fn between(low: usize, high: usize, n: usize) -> bool
    ensures { result ≡ between_of low high n }
{
    low <= n && n <= high
}

// Test 12 for tables: the tag, and the counts in range. Lent bytes below the size do not pass.
pub fn passes(t: &[u8]) -> bool
    ensures { result ≡ tables_pass t.now }
{
    if t.len() < layout::SIZE {
        return false;
    }
    if lent::get8(t, layout::TAG) != layout::TABLES_TAG {
        return false;
    }
    Tables::of(t).counts_pass()
}

// The number in the cell with an index of the column that begins at an offset. The column is a part of the memory.
fn cell_with(t: &[u8], column: usize, index: usize) -> usize
    requires { column + 2 * index + 2 ≤ length t.now }
    ensures { (result ≡ cell_in t.now column index) × (result < 65536) }
{
    usize::from(lent::get2(&t[column..], 2 * index))
}

// The number in a state's cell of the column that begins at an offset: the next state. Bytes of any length are read, where the cell lies in them.
pub fn cell(t: &[u8], column: usize, state: State) -> usize
    requires { column + 2 * state.0 + 2 ≤ length t.now }
    ensures { (result ≡ cell_in t.now column state.0) × (result < 65536) }
{
    cell_with(t, column, state.index())
}

// Table memory of the published size, or longer, to be read. Clauses see its bytes.
#[derive(Drop)]
pub struct Tables<'a> {
    bytes: &'a [u8],
}

impl<'a> Model for Tables<'a> {
    ghost use Rattle.std.specs.Prelude.{List, ℕ};
    ghost use Rattle.tables.specs.Reads.{Whole};

    ghost Value = { List ℕ };

    ghost view = { λ tables. tables.bytes.now };

    ghost invariant = { λ tables. Whole tables.bytes.now };
}

impl<'a> Tables<'a> {
    // The tables in lent memory.
    pub fn of(bytes: &'a [u8]) -> Tables<'a>
        requires { Whole bytes.now }
        ensures { result ≡ bytes.now }
    {
        Tables { bytes }
    }

    // Whether the counts of the tables are in range.
    fn counts_pass(&self) -> bool
        ensures { result ≡ counts_pass self.now }
    {
        let states = self.state_count();
        if !between(2, layout::ROOM_FOR_STATES, states) {
            return false;
        }
        if !between(1, states, self.dense()) {
            return false;
        }
        if !between(1, layout::ROOM_FOR_PIECES, self.piece_count()) {
            return false;
        }
        between(1, layout::ROOM_FOR_PHRASES, self.phrase_count())
    }

    // How many states the tables have.
    pub fn state_count(&self) -> usize
        ensures { (result ≡ state_count_in self.now) × (result < 65536) }
    {
        usize::from(lent::get2(self.bytes, layout::STATES))
    }

    // How many states have a row.
    pub fn dense(&self) -> usize
        ensures { (result ≡ dense_in self.now) × (result < 65536) }
    {
        usize::from(lent::get2(self.bytes, layout::DENSE))
    }

    // How many pieces the book has.
    pub fn piece_count(&self) -> usize
        ensures { (result ≡ piece_count_in self.now) × (result < 65536) }
    {
        usize::from(lent::get2(self.bytes, layout::PIECES))
    }

    // How many phrases the book has.
    pub fn phrase_count(&self) -> usize
        ensures { (result ≡ phrase_count_in self.now) × (result < 65536) }
    {
        usize::from(lent::get2(self.bytes, layout::PHRASES))
    }

    // The mark of the book: a checksum of its bytes.
    pub fn mark(&self) -> u64
        ensures { result ≡ mark_in self.now }
    {
        lent::get8(self.bytes, layout::MARK)
    }

    // Where the column of a byte begins: a column has a cell for each state with a row. The region is cut out first: the offset in it is then the byte's
    // alone, and a loop need not reckon it anew; so with the infos below. A caller learns that the memory is whole: it needs it for the cell.
    pub fn column(&self, byte: u8) -> usize
        ensures { (result ≡ column_in self.now byte) × (result < 65536) × (Whole self.now) }
    {
        usize::from(lent::get2(&self.bytes[layout::COLUMN..], 2 * usize::from(byte)))
    }

    // The number in a state's cell of the column that begins at an offset.
    pub fn cell(&self, column: usize, state: State) -> usize
        requires { column + 2 * state.0 + 2 ≤ length self.now }
        ensures { (result ≡ cell_in self.now column state.0) × (result < 65536) }
    {
        cell(self.bytes, column, state)
    }

    // The same by the state's index, which the loops over bytes carry along.
    pub fn cell_at(&self, column: usize, index: usize) -> usize
        requires { column + 2 * index + 2 ≤ length self.now }
        ensures { (result ≡ cell_in self.now column index) × (result < 65536) }
    {
        cell_with(self.bytes, column, index)
    }

    // How many failures lead from a state to the root.
    pub fn depth(&self, state: State) -> u8
        requires { state.0 < room_for_states }
        ensures { result ≡ depth_in self.now state.0 }
    {
        self.bytes[layout::DEPTH + state.index()]
    }

    // What a state's info says: its gain, and whether some keyword is a suffix of it.
    pub fn info(&self, state: State) -> u8
        requires { state.0 < room_for_states }
        ensures { result ≡ info_in self.now state.0 }
    {
        let infos = &self.bytes[layout::INFO..];
        infos[state.index()]
    }

    // What a byte into the state leaves of the one that it may add to the depth.
    pub fn gain(&self, state: State) -> u8
        requires { state.0 < room_for_states }
        ensures { result ≡ gain_in self.now state.0 }
    {
        self.info(state) % layout::ENDING
    }

    // Whether some keyword is a suffix of the state.
    pub fn has_ending(&self, state: State) -> bool
        requires { state.0 < room_for_states }
        ensures { result ≡ ending_in self.now state.0 }
    {
        layout::ENDING <= self.info(state)
    }

    // The first piece to look at, where the state has an ending.
    pub fn out(&self, state: State) -> usize
        requires { state.0 < room_for_states }
        ensures { (result ≡ out_in self.now state.0) × (result < room_for_pieces) }
    {
        usize::from(self.bytes[layout::OUT + state.index()])
    }

    // The first piece that ends in the state, if one does.
    pub fn first_link(&self, state: State) -> Option<usize>
        requires { state.0 < room_for_states }
        ensures { (as_link result ≡ first_link_in self.now state.0) × (as_link result ≤ room_for_pieces) }
    {
        if self.has_ending(state) {
            return Some(self.out(state));
        }
        None
    }

    // The last byte of a state.
    pub fn label(&self, state: State) -> u8
        requires { state.0 < room_for_states }
        ensures { result ≡ label_in self.now state.0 }
    {
        self.bytes[layout::LABEL + state.index()]
    }

    // The failure that a walk takes: only to a smaller number, so that a walk over any bytes ends.
    pub fn failure(&self, state: State) -> State
        requires { state.0 < room_for_states }
        ensures { (result.0 ≡ back_in self.now state.0) × (result.0 ≤ state.0) }
    {
        let fail = lent::get2(self.bytes, layout::FAIL + 2 * state.index());
        if fail < state.number() {
            return State::numbered(fail);
        }
        State::root()
    }

    // The number of the state's first child.
    pub fn first_child(&self, state: State) -> usize
        requires { state.0 < room_for_states }
        ensures { (result ≡ first_child_in self.now state.0) × (result < 65536) }
    {
        usize::from(lent::get2(self.bytes, layout::CHILD + 2 * state.index()))
    }

    // The number after that of its last child.
    pub fn children_end(&self, state: State) -> usize
        requires { state.0 < room_for_states }
        ensures { (result ≡ first_child_in self.now (state.0 + 1)) × (result < 65536) }
    {
        usize::from(lent::get2(self.bytes, layout::CHILD + 2 * (state.index() + 1)))
    }

    // Kept, no plainer: pieces are counted up to 256, which a byte does not hold; with `p: u8` in place of `p < room_for_pieces` each use would be `p as u8`.
    // How many bytes after the piece before it piece p may end first.
    pub fn delay(&self, p: usize) -> u16
        requires { p < room_for_pieces }
        ensures { result ≡ delay_in self.now p }
    {
        lent::get2(self.bytes, layout::PIECE + layout::PIECE_LENGTH * p)
    }

    // How many bytes later than it opens the window of piece p closes; 65,535 says that it never does.
    pub fn span(&self, p: usize) -> u16
        requires { p < room_for_pieces }
        ensures { result ≡ span_in self.now p }
    {
        lent::get2(
            self.bytes,
            layout::PIECE + layout::PIECE_LENGTH * p + layout::SPAN,
        )
    }

    // The link of piece p, as it stands.
    pub fn link(&self, p: usize) -> u16
        requires { p < room_for_pieces }
        ensures { result ≡ link_in self.now p }
    {
        lent::get2(
            self.bytes,
            layout::PIECE + layout::PIECE_LENGTH * p + layout::LINK,
        )
    }

    // The piece that a scan looks at after piece p, if there is one: p's link is one more than that piece, 0 for none.
    pub fn onward(&self, p: usize) -> Option<usize>
        requires { p < room_for_pieces }
        ensures { (as_link result ≡ onward_in self.now p) × (as_link result ≤ room_for_pieces) }
    {
        let link = usize::from(self.link(p));
        if layout::ROOM_FOR_PIECES < link {
            return None;
        }
        link.checked_sub(1)
    }

    // The rank of piece p's phrase.
    pub fn rank(&self, p: usize) -> Rank
        requires { p < room_for_pieces }
        ensures { result.0 ≡ rank_in self.now p }
    {
        Rank::of(self.bytes[layout::PIECE + layout::PIECE_LENGTH * p + layout::RANK])
    }

    // Whether piece p is the first and the last of its phrase, as it stands.
    pub fn ends(&self, p: usize) -> u8
        requires { p < room_for_pieces }
        ensures { result ≡ ends_in self.now p }
    {
        self.bytes[layout::PIECE + layout::PIECE_LENGTH * p + layout::ENDS]
    }

    pub fn is_last(&self, p: usize) -> bool
        requires { p < room_for_pieces }
        ensures { result ≡ last_in self.now p }
    {
        self.ends(p) % 2 == 1
    }

    pub fn is_first(&self, p: usize) -> bool
        requires { p < room_for_pieces }
        ensures { result ≡ first_in self.now p }
    {
        self.ends(p) / 2 % 2 == 1
    }

    // The number of the phrase with a rank.
    pub fn phrase_number(&self, rank: Rank) -> Number
        requires { rank.0 < room_for_phrases }
        ensures { result.0 ≡ phrase_number_in self.now rank.0 }
    {
        Number::of(lent::get2(
            self.bytes,
            layout::PHRASE + layout::PHRASE_LENGTH * rank.index(),
        ))
    }

    // The rights code of the phrase with a rank.
    pub fn phrase_rights(&self, rank: Rank) -> u8
        requires { rank.0 < room_for_phrases }
        ensures { result ≡ phrase_rights_in self.now rank.0 }
    {
        self.bytes[layout::PHRASE + layout::PHRASE_LENGTH * rank.index() + layout::RIGHTS]
    }
}
