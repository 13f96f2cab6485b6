//! The moves that lead to the nodes of a tree, and the class layouts that the nodes hold.
ghost use Rattle.std.specs.Prelude.{◌≡◌, filter, length, map};
ghost use Rattle.suit_plans.specs.Masses.{is_declarers, is_defences, is_first};
ghost use Rattle.suit_tree.specs.Nodes.{holds_index, move_of};
ghost use Rattle.suit_program.specs.Supports.Additions.{children_at, children_by};

use suit_classes::ClassMove;
use suit_tree::Node;

/// Whether a move leads to the first of some nodes.
pub(crate) fn is_first_of(nodes: &[Node], mv: ClassMove) -> bool
    ensures { result ≡ is_first (map move_of nodes.now) mv }
{
    match nodes {
        [first, ..] => first.mv().is_same(mv),
        [] => false,
    }
}

/// Whether a move leads to the first of some nodes that hold the class layout with an index.
pub(crate) fn is_first_for(nodes: &[Node], index: u8, mv: ClassMove) -> bool
    ensures { result ≡ is_first (map move_of (filter (holds_index index) nodes.now)) mv }
{
    for node in nodes {
        if node.holds(index) {
            return node.mv().is_same(mv);
        }
    }
    false
}

/// How many of some nodes hold the class layout with an index.
pub(crate) fn count_for(nodes: &[Node], index: u8) -> usize
    ensures { result ≡ length (filter (holds_index index) nodes.now) }
{
    nodes.iter().filter(|node| node.holds(index)).count()
}

/// The nodes below a class history that goes on from a node.
pub(crate) fn children_at<'a>(node: &Node<'a>, history: &[ClassMove]) -> &'a [Node<'a>]
    ensures { result.now ≡ children_at node.now history.now }
{
    let mut children = node.children();
    for mv in history {
        children = children_by(children, *mv);
    }
    children
}

// The nodes below the first of some nodes to which a move leads.
fn children_by<'a>(nodes: &'a [Node<'a>], mv: ClassMove) -> &'a [Node<'a>]
    ensures { result.now ≡ children_by nodes.now mv }
{
    for node in nodes {
        if node.mv().is_same(mv) {
            return node.children();
        }
    }
    &[]
}
