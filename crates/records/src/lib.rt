// The records that a node is handed: announcement, sheet, start and query.
#![tactic(auto)]

use state::{Cycle, Day, Login, Minima, Subject};

mod actions;
mod announcements;
pub mod layout;
mod sheets;
mod start_query;

pub use announcements::read_announcement;
pub use sheets::{is_sheet, reaches_quorum};
pub use start_query::{read_query, read_start};

// The nine actions, one case per kind, 1 to 9, with its arguments.
#[derive(Clone, Copy)]
pub enum Action {
    Propose { subject: Subject },
    Cancel { cycle: Cycle },
    // To present where the flag is set, else back to certified.
    Presents { seat: u8, flag: bool },
    Certify { seat: u8, life: u32 },
    Minima { minima: Minima },
    Remove { seat: u8 },
    Rejoin { seat: u8, life: u32 },
    Grant { row: Login },
    End { login: u32 },
}

// What the park is asked to do in a cycle, announced on a day.
#[derive(Clone, Copy)]
pub struct Announcement {
    pub cycle: Cycle,
    pub day: Day,
    pub action: Action,
}

// Which seat a node takes, and under which life.
#[derive(Clone, Copy)]
pub struct Start {
    pub seat: u8,
    pub life: u32,
}

// May this login use this right on this day, at this door?
#[derive(Clone, Copy)]
pub struct Query {
    pub login: u32,
    pub day: Day,
    pub right: u8,
    pub door: u8,
}
