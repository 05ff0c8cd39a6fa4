// Failure steps from their definition. A state is a part of the letter, from its start to its end, that is empty or a prefix of a
// keyword.
use crate::list::Piece;
use crate::same::begins;

// Whether the bytes read from a start on are a state.
fn is_state(pieces: &[Piece], read: &[u8], start: usize) -> bool {
    let Some(part) = read.get(start..) else {
        return false;
    };
    part.is_empty()
        || pieces
            .iter()
            .any(|piece| begins(piece.keyword.as_slice(), part))
}

// The failure steps for a byte: the states that are suffixes of the bytes read before it and that do not go on with it, from the
// longest one down to the longest that does; all nonempty ones where none does.
pub(crate) fn steps_for(pieces: &[Piece], before: &[u8], with_it: &[u8]) -> usize {
    (0..before.len())
        .filter(|start| is_state(pieces, before, *start))
        .take_while(|start| !is_state(pieces, with_it, *start))
        .count()
}
