//! What tasks on several threads share and hand over.
use super::{Node, Tree, TreeEnd};

fn shared<T: Send + Sync>() {}

/// A tree, its nodes and why there is none may be sent to another thread and be shared with it.
pub fn trees_are_shared<'a>() {
    shared::<Tree<'a>>();
    shared::<Node<'a>>();
    shared::<TreeEnd>();
}
