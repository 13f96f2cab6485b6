//! The first of the nodes below one.
ghost use Rattle.std.specs.Prelude.{◌≡◌, filter};
ghost use Rattle.suit_tree.specs.Nodes.{holds_index};
ghost use Rattle.suit_reply.specs.NodeMoves.{is_first_of};

use suit_classes::ClassMove;
use suit_tree::Node;

/// Whether a move leads to the first of some nodes.
pub(crate) fn is_first_of(nodes: &[Node], mv: ClassMove) -> bool
    ensures { result ≡ is_first_of nodes.now mv }
{
    match nodes {
        [first, ..] => first.mv().is_same(mv),
        [] => false,
    }
}

/// Whether a move leads to the first of some nodes that hold the class layout with an index.
pub(crate) fn is_first_for(nodes: &[Node], index: u8, mv: ClassMove) -> bool
    ensures { result ≡ is_first_of (filter (holds_index index) nodes.now) mv }
{
    for node in nodes {
        if node.holds(index) {
            return node.mv().is_same(mv);
        }
    }
    false
}
