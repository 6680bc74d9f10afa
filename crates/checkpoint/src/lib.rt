// The checkpoint: a state as 1,110 bytes, and the earlier kind without notices, which is read.
#![tactic(auto)]

use state::{Cycle, Day, Minima};

mod check;
pub mod layout;
mod read;
mod rows;
mod write;

pub use check::{is_checkpoint, is_current};
pub use read::{current_state_in, cycle_in, standing_in, state_in};
pub use write::write_checkpoint;

// The numbers of a state, which stand before its tables.
#[derive(Clone, Copy)]
pub struct Head {
    pub cycle: Cycle,
    pub day: Day,
    pub trustees1: u8,
    pub trustees2: u8,
    pub minima: Minima,
}
