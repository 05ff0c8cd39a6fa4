// The layout of the running memory, in bytes. The table itself, with what each region says, is `running_layout` of the
// specification: the names and their order here are those of its rows.

// The published size.
pub const SIZE: usize = 10528;

// Where each region begins.
pub const TAG: usize = 0;

pub const STATE: usize = 8;

pub const SPARE: usize = 10;

pub const PLACE: usize = 16;

pub const MARK: usize = 24;

pub const FLAG: usize = 32;

pub const CLOSING: usize = 288;

pub const RING: usize = 2336;

// How many slots the ring has, and how many bytes a slot: a bit for each piece.
pub const SLOTS: u64 = 256;

pub const SLOT_LENGTH: usize = 32;

// The closing place of one piece.
pub const CLOSING_LENGTH: usize = 8;

// ── What the entries hold ──

// The first bytes of begun running memory.
pub const RUNNING_TAG: u64 = 0x31304e4e55525f5f;

// The flag of a slot in which some piece waits.
pub const FLAGGED: u8 = 128;

// The closing place of a window that never closes.
pub const NEVER: u64 = 18446744073709551615;
