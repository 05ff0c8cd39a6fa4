// Numbers in decimal, first digit first.
ghost use Rattle.std.specs.Prelude.{◌≡◌, ◌+◌, ◌≤◌, length};
ghost use Rattle.lent.specs.Numbers.{with_bytes};
ghost use Rattle.listing.specs.Decimal.{digits};

// The byte of the digit 0.
const ZERO: u8 = 48;

// The base that numbers are written at.
const TEN: u64 = 10;

// Kept, holds: document 01 demands the digit writer that calls itself.
// Writes a number from `at` on, and answers where its digits end. The digits before the last are those of a tenth of the number,
// so they are written by the same function, first.
pub(crate) fn write_number(out: &mut [u8], at: usize, n: u64) -> usize
    requires { at + length (digits n) ≤ length out.old }
    ensures value { result ≡ at + length (digits n) }
    ensures out_after { out.new ≡ with_bytes out.old at (digits n) }
{
    if n < TEN {
        out[at] = ZERO + n as u8;
        return at + 1;
    }
    let last = write_number(out, at, n / TEN);
    out[last] = ZERO + (n % TEN) as u8;
    last + 1
}
