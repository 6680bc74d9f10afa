// The numbers that bound what a node holds.

// The rows of the three tables.
pub const SEATS: usize = 32;

pub const PROPOSAL_ROWS: usize = 16;

pub const LOGIN_ROWS: usize = 64;

// Seats are numbered below this.
pub const SEAT_NUMBERS: u8 = 32;

// Rights are numbered below this: a login has a bit for each.
pub const RIGHTS: u8 = 16;

// The most trustees of a level, and the greatest margin, least quorum, silence limit and notice.
pub const MOST_TRUSTEES: u8 = 8;

pub const MOST_MARGIN: u8 = 7;

pub const MOST_LEAST: u8 = 32;

pub const MOST_SILENCE: u16 = 365;

pub const MOST_NOTICE: u8 = 30;

// The number of the last cycle, in which nothing is performed.
pub const LAST_CYCLE: u32 = 4294967295;
