//! Laws of the counted class histories and of the tree: each is the contract of an empty function.
ghost use Rattle.suit_tree.specs.TreeLaws.{AllowsIsAllowed, ChildrenRise, CountedExactly, CountedOnce, KeptLayouts};
ghost use Rattle.suit_tree.specs.TreeLaws.{NoOtherNode, NodesTellPlay, OneNodeAtEachPath};

/// The class layouts of positive weight are told to allow the class histories that they allow.
pub fn allows_is_allowed()
    ensures { AllowsIsAllowed }
{}

/// Exactly the histories that a class layout allows and that go past no decided position are counted for it.
pub fn counted_exactly()
    ensures { CountedExactly }
{}

/// No history is counted twice for a class layout.
pub fn counted_once()
    ensures { CountedOnce }
{}

/// A node holds the indices of exactly those class layouts that allow its history.
pub fn kept_layouts()
    ensures { KeptLayouts }
{}

/// At the path of each history that is counted for some class layout, the tree has exactly one node.
pub fn one_node_at_each_path()
    ensures { OneNodeAtEachPath }
{}

/// At no other path the tree has a node.
pub fn no_other_node()
    ensures { NoOtherNode }
{}

/// A node at the path to which a legal history of single cards merges says what that play does: who is on turn, what
/// the
/// tricks won are worth where nothing can change it, and which moves come next under the layout.
pub fn nodes_tell_play()
    ensures { NodesTellPlay }
{}

/// The moves to the nodes below a node rise in the order of class moves.
pub fn children_rise()
    ensures { ChildrenRise }
{}
