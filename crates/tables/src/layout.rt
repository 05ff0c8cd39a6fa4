// The layout of the table memory, in bytes. The table itself, with what each region says, is `tables_layout` of the
// specification: the names and their order here are those of its rows.

// The published size.
pub const SIZE: usize = 49152;

// Where each region begins.
pub const TAG: usize = 0;

pub const STATES: usize = 8;

pub const DENSE: usize = 10;

pub const PIECES: usize = 12;

pub const PHRASES: usize = 14;

pub const MARK: usize = 16;

pub const SPARE: usize = 24;

pub const COLUMN: usize = 32;

pub const INFO: usize = 544;

pub const OUT: usize = 2592;

pub const DEPTH: usize = 4640;

pub const LABEL: usize = 6688;

pub const FAIL: usize = 8736;

pub const CHILD: usize = 12832;

pub const PIECE: usize = 16930;

pub const PHRASE: usize = 18978;

pub const ROWS: usize = 19490;

// How many entries there is room for.
pub const ROOM_FOR_STATES: usize = 2048;

pub const ROOM_FOR_PIECES: usize = 256;

pub const ROOM_FOR_PHRASES: usize = 128;

pub const ROOM_FOR_CELLS: usize = 14831;

// How many bytes there are, each with its column.
pub const BYTE_VALUES: usize = 256;

// An entry of a piece, and where its parts begin in it: the delay comes first.
pub const PIECE_LENGTH: usize = 8;

pub const SPAN: usize = 2;

pub const LINK: usize = 4;

pub const RANK: usize = 6;

pub const ENDS: usize = 7;

// An entry of a phrase, and where its parts begin in it: the number comes first.
pub const PHRASE_LENGTH: usize = 4;

pub const RIGHTS: usize = 2;

// ── What the entries hold ──

// The first bytes of built tables.
pub const TABLES_TAG: u64 = 0x3230454c42415454;

// In a state's info: some keyword is a suffix of the state. What stands below it is the gain.
pub const ENDING: u8 = 128;

// The span of an open gap: its window never closes.
pub const NEVER_CLOSES: u16 = 65535;

// In a piece's ends: it is the last of its phrase; it is the first.
pub const IS_LAST: u8 = 1;

pub const IS_FIRST: u8 = 2;
