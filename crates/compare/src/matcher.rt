// The second matcher, straight from what a match is: a piece ends at a place if its keyword fills the bytes that end there, and the
// bytes between it and an end of the piece before are as many as its gap admits. Before the first piece stands place 0.
use crate::list::{Gap, LETTER, PIECES, Piece};
use crate::same::begins;
use arrayvec::ArrayVec;

// Whether a piece ends at each place of a letter, from that behind its first byte on.
pub(crate) type Ends = ArrayVec<bool, LETTER>;

pub(crate) type AllEnds = ArrayVec<Ends, PIECES>;

// Whether a keyword that starts here follows an end of the piece before.
fn follows(gap: Gap, before: &[bool], start: usize) -> bool {
    before.iter().enumerate().any(|(n, ends)| *ends && n < start && gap.admits(start - n - 1))
}

// Whether the piece ends behind these bytes, where the piece before ends at those places.
fn ends(piece: &Piece, read: &[u8], before: &[bool]) -> bool {
    let keyword = piece.keyword.as_slice();
    if keyword.len() > read.len() {
        return false;
    }
    let start = read.len() - keyword.len();
    if !begins(&read[start..], keyword) {
        return false;
    }
    if piece.nth == 0 {
        return piece.gap.admits(start);
    }
    follows(piece.gap, before, start)
}

// At which places the piece ends; none where there is no room for them.
fn ends_of(piece: &Piece, letter: &[u8], before: &[bool]) -> Option<Ends> {
    let mut places = Ends::new();
    for place in 1..=letter.len() {
        places.try_push(ends(piece, &letter[..place], before)).ok()?;
    }
    Some(places)
}

// At which places the last of these pieces ends.
fn last_ends(all: &[Ends]) -> &[bool] {
    match all.last() {
        Some(places) => places.as_slice(),
        None => &[],
    }
}

// At which places each piece ends, from the first piece on, so that the ends of the piece before are known; none where there is no room
// for them.
pub(crate) fn find_ends(pieces: &[Piece], letter: &[u8], all: &mut AllEnds) -> Option<()> {
    for piece in pieces {
        let places = ends_of(piece, letter, last_ends(all.as_slice()))?;
        all.try_push(places).ok()?;
    }
    Some(())
}
