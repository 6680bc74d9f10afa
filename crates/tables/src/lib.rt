// The tables of proposals and of logins: what is found in them, and what is added and dropped.
#![tactic(auto)]

pub mod logins;
pub mod proposals;
mod rows;

pub use rows::{Row, count_used, is_full};
