// Partial keys: a key of 32 bytes split among trustees, renewed by sums of shares, and merged again.
#![tactic(auto)]

mod adding;
mod merging;
mod rows;
mod scheme;
mod splitting;

pub use adding::add_shares;
pub use merging::merge_shares;
pub use splitting::split_key;

pub const KEY_SIZE: usize = 32;

pub const MOST_SHARES: usize = 16;
