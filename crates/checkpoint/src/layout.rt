// The kinds and sizes of a checkpoint, and where its parts start.
use state::limits::{PROPOSAL_ROWS, SEATS};

pub const CHECKPOINT: u16 = 26;

pub const CHECKPOINT_LENGTH: u16 = 1108;

pub const CHECKPOINT_SIZE: usize = 1110;

// The earlier kind, which is read and has no notices.
pub const EARLIER: u16 = 16;

pub const EARLIER_LENGTH: u16 = 1106;

pub const EARLIER_SIZE: usize = 1108;

// The rows of the tables.
pub const SEAT_SIZE: usize = 5;

pub const PROPOSAL_SIZE: usize = 18;

pub const LOGIN_SIZE: usize = 10;

// The numbers before the tables, and of these the notices.
pub const HEAD_AT: usize = 4;

pub const NOTICES_AT: usize = 18;

// The tables, in each kind.
pub const TABLES_AT: usize = 20;

pub const EARLIER_TABLES_AT: usize = NOTICES_AT;

// Within the tables, behind the seats: the count of each of the other two, and the table.
pub const PROPOSAL_COUNT_AT: usize = SEATS * SEAT_SIZE;

pub const PROPOSALS_AT: usize = PROPOSAL_COUNT_AT + 1;

pub const LOGIN_COUNT_AT: usize = PROPOSALS_AT + PROPOSAL_ROWS * PROPOSAL_SIZE;

pub const LOGINS_AT: usize = LOGIN_COUNT_AT + 1;
