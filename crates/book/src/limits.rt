// The limits of document 01: the ranges of the fields, and how many of each there may be.

// The ranges of the fields.
pub const THE_EDITION: u8 = 1;

pub const MOST_RIGHTS: u8 = 12;

pub const MOST_LEAST: u16 = 224;

pub const MOST_MOST: u16 = 60000;

// How many of each there may be.
pub const MOST_PHRASES: usize = 128;

pub const MOST_PIECES_OF_PHRASE: usize = 8;

pub const MOST_PIECES: usize = 256;

pub const MOST_PREFIXES: usize = 2047;
