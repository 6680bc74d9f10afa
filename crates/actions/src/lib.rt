// The nine actions, from a state to a state.
#![tactic(auto)]

mod effects;

pub use effects::advance;
