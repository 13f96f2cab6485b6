//! Nodes of the class tree.
ghost use Rattle.std.specs.Prelude.{◌≡◌};
ghost use Rattle.suit_tree.specs.Nodes.{children_of, holds_index, layouts_at, move_of, move_to, payoff_at, turn_at};

use std::fmt;
use suit_classes::{ClassMove, ClassTurn};

/// A class history that counts, with all that go on from it: a small value that lends its lists from the tree's arena.
#[derive(Clone, Copy)]
pub struct Node<'a> {
    pub(crate) by: Option<ClassMove>,
    pub(crate) turn: ClassTurn,
    pub(crate) payoff: u64,
    pub(crate) layouts: &'a [u8],
    pub(crate) children: &'a [Node<'a>],
}

impl<'a> Node<'a> {
    /// The last move of the history, and None at the root alone.
    pub fn by(&self) -> Option<ClassMove>
        ensures { result ≡ move_to self.now }
    {
        self.by
    }

    /// The move that leads to it: the last of its history, and showing out at the root.
    pub fn mv(&self) -> ClassMove
        ensures { result ≡ move_of self.now }
    {
        match self.by {
            Some(mv) => mv,
            None => ClassMove::ShowOut,
        }
    }

    /// Who is on turn.
    pub fn turn(&self) -> ClassTurn
        ensures { result ≡ turn_at self.now }
    {
        self.turn
    }

    /// The indices, into the tree's class layouts, of those that allow the history, rising.
    pub fn layouts(&self) -> &'a [u8]
        ensures { result.now ≡ layouts_at self.now }
    {
        self.layouts
    }

    /// Whether the class layout at an index is one of these.
    pub fn holds(&self, index: u8) -> bool
        ensures { result ≡ holds_index index self.now }
    {
        self.layouts.contains(&index)
    }

    /// What the tricks won are worth where the history is decided, and 0 where it is not.
    pub fn payoff(&self) -> u64
        ensures { result ≡ payoff_at self.now }
    {
        self.payoff
    }

    /// The histories with one more move, in the order of these moves.
    pub fn children(&self) -> &'a [Node<'a>]
        ensures { result.now ≡ children_of self.now }
    {
        self.children
    }
}

impl fmt::Debug for Node<'_> {
    /// The node itself, without those below it.
    fn fmt<W: fmt::Write>(&self, f: &mut fmt::Formatter<W>) -> fmt::Result {
        write!(
            f,
            "Node({:?}, {:?}, {:?})",
            self.by, self.turn, self.layouts
        )
    }
}
