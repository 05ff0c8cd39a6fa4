// The window of a piece: one small record, lent where its closing place is renewed.
ghost use Rattle.std.specs.Prelude.{◌≡◌};
ghost use Rattle.window.specs.Closing.{renewed_to};

use counters::Place;

// The last place at which the piece may end. One suffices, since a window that opens later closes later.
#[derive(Clone, Copy)]
pub struct Window {
    pub closes: Place,
}

impl Window {
    // A newer window opens: the closing place is replaced by the later one.
    pub fn renew(&mut self, newer: Place)
        ensures { self.new ≡ renewed_to self.old newer }
    {
        self.closes = newer;
    }
}
