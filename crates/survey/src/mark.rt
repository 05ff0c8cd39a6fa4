// The mark of a book: a plain checksum, which tells memory of one book from that of another.
ghost use Rattle.std.specs.Prelude.{◌≡◌, ◌+◌, ◌*◌, ◌%◌, ◌<◌};
ghost use Rattle.tables.specs.Layout.{mark_from};

// By how much the mark grows with each byte, before the byte is added.
const FACTOR: u64 = 257;

// How many numbers four bytes can hold.
const FOUR: u64 = 4294967296;

// The mark after one byte more.
fn marked(m: u64, byte: u8) -> u64
    requires { m < 4294967296 }
    ensures { (result ≡ (257 * m + byte + 1) % 4294967296) × (result < 4294967296) }
{
    (FACTOR * m + u64::from(byte) + 1) % FOUR
}

// The mark of all the bytes, from 0 on.
pub fn mark_of(book: &[u8]) -> u64
    ensures { result ≡ mark_from 0 book.now }
{
    let mut m = 0;
    for byte in book {
        m = marked(m, *byte);
    }
    m
}
