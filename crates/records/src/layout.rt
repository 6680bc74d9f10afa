// The kinds and sizes of the records. The length of a record is that of what follows its length field.
pub const ANNOUNCEMENT_LENGTH: u16 = 22;

pub const ANNOUNCEMENT_SIZE: usize = 24;

pub const SHEET: u16 = 18;

// The length of a sheet without rows, and the bytes before its rows.
pub const SHEET_LENGTH: u16 = 5;

pub const SHEET_HEAD: usize = 7;

// The masks of the two levels of trustees.
pub const MASK1_AT: usize = 4;

pub const MASK2_AT: usize = 5;

pub const ROW_SIZE: usize = 5;

pub const ROW_LENGTH: u16 = 5;

pub const MOST_ROWS: u8 = 64;

pub const START: u16 = 19;

pub const START_LENGTH: u16 = 7;

pub const START_SIZE: usize = 9;

pub const QUERY: u16 = 20;

pub const QUERY_LENGTH: u16 = 11;

pub const QUERY_SIZE: usize = 13;

// A query that names its door.
pub const DOOR_QUERY: u16 = 21;

pub const DOOR_QUERY_LENGTH: u16 = 12;

pub const DOOR_QUERY_SIZE: usize = 14;

pub const DOORS: usize = 4;

// Doors are numbered below this.
pub const DOOR_NUMBERS: u8 = 4;
