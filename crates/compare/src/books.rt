// Books and letters by chance. All keywords of a book are parts of the same bytes, so that many are repeated, lie in one another, or
// are suffixes of one another; and the letter is put together from parts of these bytes.
use crate::chance::Chance;
use crate::list::{Book, Gap, Keyword, LETTER, Letter, Piece, Pieces};

// How large the parts of a book are.
#[derive(Clone, Copy)]
pub(crate) struct Shape {
    // So many different bytes; with 0 nearly all are the same.
    pub(crate) alphabet: u8,
    // The length of a keyword, the phrases of a book and the pieces of a phrase, at most.
    pub(crate) longest: u16,
    pub(crate) phrases: u16,
    pub(crate) pieces: u16,
    // Gaps near the largest least, and a letter that is longer than they are.
    pub(crate) far: bool,
}

// ── The bytes ──

pub(crate) const BYTES: usize = 64;

const FIRST_BYTE: u8 = 97;

// One byte in so many differs, where nearly all are the same.
const RARE: u16 = 64;

// The last of the bytes lies in no keyword.
const FOREIGN: u8 = 120;

fn drawn_byte(chance: &mut Chance, alphabet: u8) -> u8 {
    if alphabet > 0 {
        return FIRST_BYTE.wrapping_add(chance.draw(u16::from(alphabet)) as u8);
    }
    if chance.draw(RARE) == 0 {
        return FIRST_BYTE + 1;
    }
    FIRST_BYTE
}

pub(crate) fn drawn_bytes(chance: &mut Chance, alphabet: u8) -> [u8; BYTES] {
    let mut bytes = [0u8; BYTES];
    for byte in bytes.iter_mut() {
        *byte = drawn_byte(chance, alphabet);
    }
    bytes[BYTES - 1] = FOREIGN;
    bytes
}

// ── Gaps ──

const LARGEST_LEAST: u16 = 224;

const LARGEST_MOST: u16 = 60000;

fn drawn_least(chance: &mut Chance, far: bool) -> u16 {
    if far {
        return LARGEST_LEAST - chance.draw(25) % LARGEST_LEAST;
    }
    chance.draw(5)
}

// The least itself, the largest, one far above the least, or one near to it.
fn drawn_most(chance: &mut Chance, least: u16) -> u16 {
    match chance.draw(4) {
        0 => least,
        1 => LARGEST_MOST,
        2 => least % LARGEST_MOST + chance.draw(252) % 252,
        _ => least % LARGEST_MOST + chance.draw(6),
    }
}

// One gap in four is open.
fn drawn_gap(chance: &mut Chance, far: bool) -> Gap {
    let least = drawn_least(chance, far);
    let most = drawn_most(chance, least);
    let open = chance.draw(4) == 3;
    Gap {
        least,
        most: if open { None } else { Some(most) },
    }
}

// The gap of a phrase's nth piece. Every second phrase may begin anywhere.
fn drawn_gap_of(chance: &mut Chance, nth: usize, far: bool) -> Gap {
    if nth > 0 {
        return drawn_gap(chance, far);
    }
    if chance.draw(2) == 0 {
        return Gap::ANYWHERE;
    }
    drawn_gap(chance, false)
}

// ── Phrases ──

// Phrase numbers that follow each other are at most so far apart.
const APART: u16 = 300;

fn drawn_length(chance: &mut Chance, longest: u16) -> usize {
    if chance.draw(4) == 0 {
        return usize::from(longest);
    }
    1 + chance.draw_size(longest)
}

// A part of the bytes; none where they end before it or it is longer than any keyword.
fn drawn_keyword(chance: &mut Chance, longest: u16, bytes: &[u8; BYTES]) -> Option<Keyword> {
    let from = chance.draw_size(longest);
    let length = drawn_length(chance, longest);
    let part = bytes[..].get(from..)?.get(..length)?;
    Keyword::try_from(part).ok()
}

// The pieces of one phrase more; none where there is no room for them.
fn push_phrase(
    pieces: &mut Pieces,
    chance: &mut Chance,
    shape: Shape,
    bytes: &[u8; BYTES],
    number: u16,
) -> Option<()> {
    let last = chance.draw_size(shape.pieces);
    for nth in 0..=last {
        let gap = drawn_gap_of(chance, nth, shape.far);
        let keyword = drawn_keyword(chance, shape.longest, bytes)?;
        let piece = Piece {
            number,
            nth,
            last: nth == last,
            gap,
            keyword,
        };
        pieces.try_push(piece).ok()?;
    }
    Some(())
}

// A book; none where there is no room for all its pieces.
pub(crate) fn drawn_book(chance: &mut Chance, shape: Shape, bytes: &[u8; BYTES]) -> Option<Book> {
    let phrases = 1 + chance.draw(shape.phrases);
    let mut pieces = Pieces::new();
    let mut number = 0u16;
    for _ in 0..phrases {
        number = number.wrapping_add(1 + chance.draw(APART));
        push_phrase(&mut pieces, chance, shape, bytes, number)?;
    }
    Some(Book { phrases, pieces })
}

// ── Letters ──

const LENGTHS: u16 = 61;

// Far letters have so many bytes at least.
const FAR_LENGTH: usize = 300;

const FAR_LENGTHS: u16 = 200;

fn drawn_letter_length(chance: &mut Chance, far: bool) -> usize {
    if far {
        return FAR_LENGTH + chance.draw_size(FAR_LENGTHS);
    }
    chance.draw_size(LENGTHS)
}

// Mostly the place after, else one where keywords may begin, at times any.
fn next_place(chance: &mut Chance, place: usize, longest: u16) -> usize {
    match chance.draw(8) {
        0 => chance.draw_size(BYTES as u16),
        1 => chance.draw_size(longest),
        _ => place % BYTES + 1,
    }
}

// As many bytes are drawn as there is room for; the letter has the first of them.
pub(crate) fn drawn_letter(chance: &mut Chance, shape: Shape, bytes: &[u8; BYTES]) -> Letter {
    let mut drawn = [0u8; LETTER];
    let mut place = 0;
    for byte in drawn.iter_mut() {
        *byte = bytes[place % BYTES];
        place = next_place(chance, place, shape.longest);
    }
    let mut letter = Letter::from(drawn);
    letter.truncate(drawn_letter_length(chance, shape.far));
    letter
}
