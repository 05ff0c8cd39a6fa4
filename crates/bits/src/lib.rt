// The bits of a number: the next one that is set is found.
#![tactic(auto)]

ghost use Rattle.std.specs.Prelude.{◌≤◌};
ghost use Rattle.bits.specs.Bits.{bit_of, Finds};

// How many bits a number has.
const BITS: usize = 128;

// The first bit from j on that is set, if there is one.
pub fn next(x: u128, j: usize) -> Option<usize>
    requires { j ≤ 128 }
    ensures { Finds (bit_of x) 128 j result }
{
    if BITS <= j {
        return None;
    }
    let zeros = (x >> j).trailing_zeros() as usize;
    if BITS - j <= zeros {
        return None;
    }
    Some(j + zeros)
}
