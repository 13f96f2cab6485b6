//! The stopped class tree: all class histories of a question up to decided positions, each with the
//! class layouts that allow it. Its nodes stand in an arena.
#![tactic(auto)]

mod branch;
mod growing;
pub mod laws;
mod node;
mod offers;
mod sharing;
mod tree;
mod tree_end;

pub use growing::grow;
pub use node::Node;
pub use tree::Tree;
pub use tree_end::TreeEnd;
