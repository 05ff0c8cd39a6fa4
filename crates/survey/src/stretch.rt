// A stretch of the book. A keyword is one, and so are the bytes of a state.
ghost use Rattle.std.specs.Prelude.{◌≡◌, ◌+◌, ◌≤◌, length};
ghost use Rattle.survey.specs.Stretches.{bytes_of};

use tables::layout::ROOM_FOR_PIECES;

// How many keywords a book can have.
pub const KEYWORDS: usize = ROOM_FOR_PIECES;

// So many bytes of the book from an offset on.
#[derive(Clone, Copy)]
pub struct Stretch {
    pub offset: u16,
    pub count: u8,
}

impl Stretch {
    // No bytes at all.
    pub const NOWHERE: Stretch = Stretch {
        offset: 0,
        count: 0,
    };

    // Its bytes, where they lie in the book.
    pub fn bytes<'a>(self, book: &'a [u8]) -> &'a [u8]
        requires { self.offset + self.count ≤ length book.now }
        ensures { result.now ≡ bytes_of book.now self }
    {
        let start = usize::from(self.offset);
        &book[start..start + usize::from(self.count)]
    }
}
