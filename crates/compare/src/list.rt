// A book as a list of its pieces, that its bytes are written from and that the second matcher reads.
use arrayvec::ArrayVec;
use sheet::Sheet;

// ── Room ──

// The most bytes of a keyword, pieces of a book and bytes of a letter. What is larger is not compared, and counts as a difference.
const KEYWORD: usize = 32;

pub(crate) const PIECES: usize = 32;

pub(crate) const LETTER: usize = 512;

pub(crate) type Keyword = ArrayVec<u8, KEYWORD>;

pub(crate) type Pieces = ArrayVec<Piece, PIECES>;

pub(crate) type Letter = ArrayVec<u8, LETTER>;

// ── Pieces ──

// The gap before a piece: so many bytes at least, and so many at most, or any number where it is open.
#[derive(Clone, Copy, Default)]
pub(crate) struct Gap {
    pub(crate) least: u16,
    pub(crate) most: Option<u16>,
}

impl Gap {
    // The gap before a phrase that begins anywhere.
    pub(crate) const ANYWHERE: Gap = Gap {
        least: 0,
        most: None,
    };

    // Whether it may have so many bytes.
    pub(crate) fn admits(self, width: usize) -> bool {
        if width < usize::from(self.least) {
            return false;
        }
        match self.most {
            Some(most) => width <= usize::from(most),
            None => true,
        }
    }
}

#[derive(Drop, Default)]
pub(crate) struct Piece {
    // the number of its phrase
    pub(crate) number: u16,
    // which piece of its phrase it is, from 0, and whether it is the last one
    pub(crate) nth: usize,
    pub(crate) last: bool,
    pub(crate) gap: Gap,
    pub(crate) keyword: Keyword,
}

// So many phrases, and their pieces one after the other.
#[derive(Drop)]
pub(crate) struct Book {
    pub(crate) phrases: u16,
    pub(crate) pieces: Pieces,
}

// ── Its bytes ──

// Room for the longest of them.
pub(crate) type Written = Sheet<2048>;

const RIGHTS: usize = 12;

// Piece n of the book, behind a phrase record where it is the first of its phrase.
fn write_piece(sheet: &mut Written, n: usize, piece: &Piece) {
    if piece.nth == 0 {
        sheet.phrase(piece.number, (n % RIGHTS + 1) as u8);
    }
    match piece.gap.most {
        Some(most) => sheet.bounded(piece.gap.least, most),
        None => sheet.open(piece.gap.least),
    }
    sheet.keyword(piece.keyword.as_slice());
}

impl Book {
    pub(crate) fn written(&self) -> Written {
        let mut sheet = Written::new();
        sheet.header(1);
        for (n, piece) in self.pieces.iter().enumerate() {
            write_piece(&mut sheet, n, piece);
        }
        sheet.end(self.phrases);
        sheet
    }
}
