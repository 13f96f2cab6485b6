//! The class tree of a question.
ghost use Rattle.std.specs.Prelude.{◌≡◌};

use super::Node;
use suit_layouts::ClassLayout;

/// All class histories of a question that count, as a tree. Its nodes stand in an arena, and go with it.
#[derive(Debug, Drop)]
pub struct Tree<'a> {
    pub(crate) layouts: Vec<(ClassLayout, u64)>,
    pub(crate) root: Node<'a>,
    pub(crate) pairs: u32,
}

impl<'a> Tree<'a> {
    /// The node of the empty history.
    pub fn root(&self) -> &Node<'a>
        ensures { result.now ≡ self.now.root }
    {
        &self.root
    }

    /// The class layouts of positive weight in order, each with its weight.
    pub fn layouts(&self) -> &[(ClassLayout, u64)]
        ensures { result.now ≡ self.now.layouts.items }
    {
        &self.layouts
    }

    /// The number of pairs of a node and a class layout that allows its history.
    pub fn pairs(&self) -> u32
        ensures { result ≡ self.now.pairs }
    {
        self.pairs
    }
}
