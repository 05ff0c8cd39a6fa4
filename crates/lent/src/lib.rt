// Numbers in lent bytes, read and written at an offset: of 2, 4 and 8 bytes low byte first, and of 2 bytes high byte first; and
// bytes made zero.
#![tactic(auto)]

ghost use Rattle.std.specs.Prelude.{◌≡◌, ◌+◌, ◌≤◌, ◌<◌, length};
ghost use Rattle.lent.specs.Numbers.{number_at, high_number_at, with_number, with_high_number};
ghost use Rattle.lent.specs.Zeros.{with_zeros};

// The number of 2 bytes at an offset, low byte first.
pub fn get2(s: &[u8], at: usize) -> u16
    requires { at + 2 ≤ length s.now }
    ensures { result ≡ number_at 2 s.now at }
{
    u16::from_le_bytes([s[at], s[at + 1]])
}

// The number of 4 bytes at an offset, low byte first.
pub fn get4(s: &[u8], at: usize) -> u32
    requires { at + 4 ≤ length s.now }
    ensures { result ≡ number_at 4 s.now at }
{
    u32::from_le_bytes([s[at], s[at + 1], s[at + 2], s[at + 3]])
}

// The number of 8 bytes at an offset, low byte first.
pub fn get8(s: &[u8], at: usize) -> u64
    requires { at + 8 ≤ length s.now }
    ensures { result ≡ number_at 8 s.now at }
{
    u64::from_le_bytes([
        s[at],
        s[at + 1],
        s[at + 2],
        s[at + 3],
        s[at + 4],
        s[at + 5],
        s[at + 6],
        s[at + 7],
    ])
}

// The number of 2 bytes at an offset, high byte first.
pub fn get2_high(s: &[u8], at: usize) -> u16
    requires { at + 2 ≤ length s.now }
    ensures { result ≡ high_number_at 2 s.now at }
{
    u16::from_be_bytes([s[at], s[at + 1]])
}

// Kept, no plainer: one `put<T: Stored>` in place of put2, put4 and put8 needs a trait whose impls have these bodies again; so with the three above.
// Writes a number of 2 bytes at an offset, low byte first.
pub fn put2(s: &mut [u8], at: usize, v: u16)
    requires { at + 2 ≤ length s.old }
    ensures { s.new ≡ with_number 2 s.old at v }
{
    s[at..at + 2].copy_from_slice(&v.to_le_bytes());
}

// Writes a number of 4 bytes at an offset, low byte first.
pub fn put4(s: &mut [u8], at: usize, v: u32)
    requires { at + 4 ≤ length s.old }
    ensures { s.new ≡ with_number 4 s.old at v }
{
    s[at..at + 4].copy_from_slice(&v.to_le_bytes());
}

// Writes a number of 8 bytes at an offset, low byte first.
pub fn put8(s: &mut [u8], at: usize, v: u64)
    requires { at + 8 ≤ length s.old }
    ensures { s.new ≡ with_number 8 s.old at v }
{
    s[at..at + 8].copy_from_slice(&v.to_le_bytes());
}

// Writes a number of 2 bytes at an offset, high byte first.
pub fn put2_high(s: &mut [u8], at: usize, v: u16)
    requires { at + 2 ≤ length s.old }
    ensures { s.new ≡ with_high_number 2 s.old at v }
{
    s[at..at + 2].copy_from_slice(&v.to_be_bytes());
}

// Makes some bytes zero.
pub fn clear(s: &mut [u8], at: usize, count: usize)
    requires { at + count ≤ length s.old }
    ensures { s.new ≡ with_zeros s.old at count }
{
    s[at..at + count].fill(0);
}
