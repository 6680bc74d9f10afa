// Rosters: comma-separated files from the office, and the grants that they stand for.
#![tactic(auto)]

mod characters;
mod export;
mod fields;
mod grants;
mod import;
mod lines;
mod rows;
mod written;

pub use export::export_grant;
pub use import::import_roster;

// The most lines of a roster.
pub const MOST_LINES: usize = 64;
