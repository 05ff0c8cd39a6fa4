// What opening a book and listing a part answer: whether the listing goes on, and where the lines end. Crate `parts` gives these answers.
// An opened book answers where its line ends: it is accepted, and the lent memory is its own before the first byte.

// The book is refused, or the lent memory is, and the letter may not begin: where the line ends that a refused book has.
#[derive(Clone, Copy, Debug, PartialEq, Eq)]
pub struct BookRefused {
    pub end: usize,
}

// So many bytes of a part were taken, with so many reports and failure steps, and its hit lines end here.
#[derive(Clone, Copy, Debug, PartialEq, Eq)]
pub struct Listed {
    pub taken: usize,
    pub hits: usize,
    pub steps: u64,
    pub end: usize,
}

// Why no byte of a part was taken.
#[derive(Clone, Copy, Debug, PartialEq, Eq)]
pub enum PartRefused {
    // the bytes already taken plus this part exceed the largest place
    TooLong,
    // the lent memory or room is refused, which is never so for memory that a book was opened in and room for every phrase
    NotTaken,
}
