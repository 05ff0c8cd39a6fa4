// The keywords of a book, where they lie in it.
ghost use Rattle.lent.specs.Numbers.{Bytes};
ghost use Rattle.filling.specs.Keywords.{Inside};

use survey::Stretch;

// A book's bytes and the stretch of each keyword. There are no more keywords than a book may have, and each lies in the book.
#[derive(Clone, Copy)]
pub struct Keywords<'a> {
    pub book: &'a [u8],
    pub words: &'a [Stretch],
    pub ghost bytes: { Bytes book.now },
    pub ghost inside: { Inside book.now words.now },
}
