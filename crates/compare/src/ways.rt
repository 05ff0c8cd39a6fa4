// Ways to feed a letter.

// In which parts it is offered.
#[derive(Clone, Copy)]
pub(crate) enum Parts {
    Whole,
    Bytes,
    Two,
}

// With how much room.
#[derive(Clone, Copy)]
pub(crate) enum Room {
    Least,
    Larger,
}

#[derive(Clone, Copy)]
pub(crate) struct Way {
    pub(crate) parts: Parts,
    pub(crate) room: Room,
}

impl Way {
    pub(crate) const COUNT: u64 = 6;

    // Its number in the lines: 0 to 2 by the parts, and 3 more with the larger room.
    pub(crate) fn number(self) -> u64 {
        let number = match self.parts {
            Parts::Whole => 0,
            Parts::Bytes => 1,
            Parts::Two => 2,
        };
        match self.room {
            Room::Least => number,
            Room::Larger => number + 3,
        }
    }
}
