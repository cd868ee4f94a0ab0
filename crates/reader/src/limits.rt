// How much a text and a draft can hold.

pub const MOST_BYTES: usize = 512;

pub const MOST_ATOMS: usize = 63;

pub const MOST_CODES: usize = 1023;
