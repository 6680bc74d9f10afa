// The node, and what each of its calls hands back.
#![tactic(auto)]

use refusals::Refusal;
use state::State;
use verdicts::{AttemptCounts, Own};

mod calls;
mod queries;

pub use calls::blank_node;
pub use queries::{ask, ask_lent};

#[derive(Clone, Copy)]
pub struct Node {
    pub state: State,
    pub own: Own,
    pub counts: AttemptCounts,
}

// The next node, with the answer or why there is none. A refused start yields no node: the blank one stands for it.
#[derive(Clone, Copy)]
pub struct Reply<T> {
    pub node: Node,
    pub answer: Result<T, Refusal>,
}

// What became of an announcement that is not refused.
#[derive(Clone, Copy, Debug, PartialEq, Eq)]
pub enum Delivered {
    Done,
    Voted,
}

// The answer to a query, and the counts of misses after it.
#[derive(Clone, Copy)]
pub struct CountedAnswer {
    pub counts: AttemptCounts,
    pub answer: Result<(), Refusal>,
}
