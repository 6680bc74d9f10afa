// The image: a node as 1,144 bytes, which the firmware keeps from one call to the next.
#![tactic(auto)]

pub mod layout;
mod read;
mod write;

pub use read::{is_image, node_in};
pub use write::{put_image, write_image};
