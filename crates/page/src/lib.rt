// The access page: the login list as text, a line for each login.
#![tactic(auto)]

mod columns;
pub mod layout;
mod lines;

pub use lines::write_page;

// What a line says of its login on a day.
#[derive(Clone, Copy, Debug, PartialEq, Eq)]
pub enum Word {
    Open,
    Ended,
    Silent,
}
