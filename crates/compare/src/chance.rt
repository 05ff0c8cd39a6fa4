// Numbers by chance, the same ones in every run.
ghost use Rattle.std.specs.Prelude.{◌<◌, ◌≤◌};

const MODULUS: u64 = 4294967296;

const FACTOR: u64 = 1664525;

const SUMMAND: u64 = 1013904223;

// The upper 14 bits of a number below the modulus are used.
const LOWER: u64 = 262144;

// The number that was drawn last.
#[derive(Drop)]
pub(crate) struct Chance(pub(crate) u64);

impl Chance {
    // The next number, below the given one; 0 where that is 0.
    pub(crate) fn draw(&mut self, below: u16) -> u16
        ensures { (result < 16384) × (result ≤ below) }
    {
        let next = (self.0 % MODULUS * FACTOR + SUMMAND) % MODULUS;
        self.0 = next;
        if below == 0 {
            return 0;
        }
        (next / LOWER) as u16 % below
    }

    // The next number, as a length or a place.
    pub(crate) fn draw_size(&mut self, below: u16) -> usize
        ensures { (result < 16384) × (result ≤ below) }
    {
        usize::from(self.draw(below))
    }
}
