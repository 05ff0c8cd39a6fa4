// By which bytes the keywords go on from a state.
ghost use Rattle.std.specs.Prelude.{◌≡◌, ◌+◌, ◌≤◌, ◌<◌, length};
ghost use Rattle.format.specs.Limits.{most_pieces};
ghost use Rattle.filling.specs.Onward.{goes_on, with_keyword, onward_from};

use crate::keywords::Keywords;
use survey::Stretch;

// How many values a byte has.
pub const BYTES: usize = tables::layout::BYTE_VALUES;

// Does a keyword go on from a state: is it longer, and does it begin with the bytes of the state?
fn goes_on(book: &[u8], state: Stretch, keyword: Stretch) -> bool
    requires state_inside { state.offset + state.count ≤ length book.now }
    requires keyword_inside { keyword.offset + keyword.count ≤ length book.now }
    ensures { result ≡ goes_on book.now state keyword }
{
    state.count < keyword.count && keyword.bytes(book).starts_with(state.bytes(book))
}

// Notes keyword q, if it goes on from a state, at the byte by which it goes on.
fn note_keyword(
    book: &[u8],
    onward: &mut [Option<u8>; BYTES],
    state: Stretch,
    q: usize,
    keyword: Stretch,
)
    requires q_lt_most_pieces { q < most_pieces }
    requires state_inside { state.offset + state.count ≤ length book.now }
    requires keyword_inside { keyword.offset + keyword.count ≤ length book.now }
    ensures { onward.new ≡ with_keyword book.now state q keyword onward.old }
{
    if goes_on(book, state, keyword) {
        let byte = keyword.bytes(book)[usize::from(state.count)];
        onward[usize::from(byte)] = Some(q as u8);
    }
}

// For each byte by which keywords go on from a state, the last of them.
pub fn onward_from(keywords: Keywords, state: Stretch) -> [Option<u8>; BYTES]
    requires { state.offset + state.count ≤ length keywords.book.now }
    ensures { result ≡ onward_from keywords.entry.book.now keywords.entry.words.now state (length keywords.entry.words.now) }
{
    let mut onward = [None; BYTES];
    for (q, keyword) in keywords.words.iter().enumerate() {
        note_keyword(keywords.book, &mut onward, state, q, *keyword);
    }
    onward
}
