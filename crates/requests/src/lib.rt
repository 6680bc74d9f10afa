// The requests of node-run: where each one ends in the input, its answer, and the line that is printed.
#![tactic(auto)]

use node::Node;

mod framing;
mod lines;
mod steps;
mod windows;

pub use framing::holds_request;
pub use lines::{LINE_ROOM, put_line};
pub use steps::take_step;
pub use windows::shift;

// The record at the front of the input: its bytes, the length field with them, and its kind.
#[derive(Clone, Copy)]
pub struct Frame {
    pub size: usize,
    pub kind: u16,
}

// No holds the number that is printed.
#[derive(Clone, Copy)]
pub enum Answer {
    Started,
    Voted,
    Done,
    Open,
    No(u8),
}

// What became of the request at the front of the input.
#[derive(Clone, Copy)]
pub struct Step {
    // The blank node stands for none.
    pub node: Node,
    pub answer: Answer,
    // The bytes of the request.
    pub used: usize,
    // A record was cut or out of its place. A flag, and no case of the answer: this answer is printed as any other is.
    pub ends: bool,
}
