// Bytes held against bytes, one by one.

// Whether bytes begin with others.
// Kept, holds: docs/PROMISES.md promises code that shares nothing with the scanner; the library's comparisons would be in both.
pub(crate) fn begins(bytes: &[u8], with: &[u8]) -> bool {
    if with.len() > bytes.len() {
        return false;
    }
    let mut i = 0;
    while i < with.len() {
        if bytes[i] != with[i] {
            return false;
        }
        i += 1;
    }
    true
}
