// The calls for C, as functions of Rattle. node_c_c exports them.
#![tactic(auto)]

mod entries;
mod numbers;
mod partial_keys;

pub use entries::{
    node_checkpoint, node_deliver, node_page, node_query, node_roster_export, node_roster_import,
    node_start,
};
pub use partial_keys::{node_shares_add, node_shares_merge, node_shares_split};
