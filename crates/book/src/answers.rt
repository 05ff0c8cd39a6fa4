// What judge answers.

// The bytes are a book within the limits, of so many bytes and phrases.
#[derive(Clone, Copy, Debug, PartialEq, Eq)]
pub struct Accepted {
    pub length: usize,
    pub phrases: usize,
}
