//! Walks over what play with the moves of a support reaches.
ghost use Rattle.std.specs.Prelude.{◌≡◌, ◌∷◌, ◌++◌, [], IfSome, Contains, is_some, map, true};
ghost use Rattle.std.specs.List.{list_any};
ghost use Rattle.suit_classes.specs.ClassPlaces.{class_after, class_turn};
ghost use Rattle.suit_plans.specs.Masses.{is_declarers, is_defences};
ghost use Rattle.suit_plans.specs.ReplyLaws.{counts_at};
ghost use Rattle.suit_tree.specs.Nodes.{children_of, move_of};
ghost use Rattle.suit_tree.specs.Trees.{IsTreeOf};
ghost use Rattle.suit_program.specs.Supports.Marks.{IsGrownTree, support_seen};
ghost use Rattle.suit_program.specs.Walks.Reaches.{IsReach, IsSomeReach, Reached, goes_in, goes_on, layout_seen};
ghost use Rattle.suit_program.specs.Walks.Reaches.{layouts_after, own_has, reached_indices, their_has};
ghost use Rattle.suit_program.specs.Supports.{declarer_chooses, defence_chooses, supported_moves};
ghost use Rattle.suit_game.specs.declared.question.Question.{Question};
ghost use Rattle.suit_game.specs.Validity.{IsValid};

use crate::Support;
use crate::supports::mark::{Mark, mark_after, names_here};
use crate::supports::node_moves::{count_for, is_first_for, is_first_of};
use arrayvec::ArrayVec;
use suit_classes::ClassMove;
use suit_layouts::MOST_CLASS_LAYOUTS;
use suit_plans::{is_declarers, is_defences};
use suit_tree::{Node, Tree};

/// As many moves as there are at most.
pub const MOST_NEXT: usize = 40;

/// A class layout in which a class history is reached.
#[derive(Clone, Copy, Debug, Default)]
pub(crate) struct ReachedLayout<'a> {
    /// Its index.
    pub(crate) index: u8,
    /// What the support names in it from the class history on, of the defence's moves.
    pub(crate) named: Option<&'a Mark>,
}

/// A class history that is reached: its node, the class layouts in which it is, and what the support names from it on.
#[derive(Debug, Drop)]
pub(crate) struct Reach<'a> {
    pub(crate) node: Node<'a>,
    pub(crate) all: bool,
    pub(crate) own: Option<&'a Mark>,
    pub(crate) layouts: ArrayVec<ReachedLayout<'a>, MOST_CLASS_LAYOUTS>,
}

impl<'a> Reach<'a> {
    /// The empty class history.
    pub(crate) fn start(tree: &Tree<'a>, support: &'a Support) -> Reach<'a>
        requires { IsGrownTree tree.now }
        ensures { (question : Question) → IsValid question → IsTreeOf question tree.now
            → IsReach question (support_seen question support.now) [] result }
    {
        let count = tree.layouts().len();
        let mut layouts = ArrayVec::new();
        for index in 0..count {
            layouts.push(ReachedLayout {
                index: index as u8,
                named: support.defence_mark(index),
            });
        }
        Reach {
            node: *tree.root(),
            all: support.all,
            own: Some(&support.declarers),
            layouts,
        }
    }

    /// Its node.
    pub(crate) fn node(&self) -> Node<'a>
        ensures { result ≡ self.now.node }
    {
        self.node
    }

    /// The class layouts in which it is reached, by their indices rising.
    pub(crate) fn layouts(&self) -> &[ReachedLayout<'a>]
        ensures { result.now ≡ self.now.layouts.items }
    {
        &self.layouts
    }

    /// Whether declarer has a choice.
    pub(crate) fn declarer_chooses(&self) -> bool
        ensures { Reached self.now (λ question support history. result ≡ declarer_chooses question history) }
    {
        is_declarers(self.node.turn()) && self.node.children().len() > 1
    }

    /// Declarer's moves of the support at a turn of his, in order.
    pub(crate) fn own_moves(&self) -> ArrayVec<ClassMove, MOST_NEXT>
        requires { IsSomeReach self.now }
        ensures { Reached self.now (λ question support history.
            is_declarers (class_turn (class_after question history)) ≡ true
            → result.items ≡ supported_moves question support [] history) }
    {
        let mut moves = ArrayVec::new();
        for child in self.node.children() {
            if self.own_has(child.mv()) {
                moves.push(child.mv());
            }
        }
        moves
    }

    /// Whether the defence has a choice in the class layout with an index.
    pub(crate) fn chooses(&self, index: u8) -> bool
        ensures { Reached self.now (λ question support history.
            Contains (reached_indices question support history) index
            → result ≡ defence_chooses question (counts_at question index) history) }
    {
        is_defences(self.node.turn()) && count_for(self.node.children(), index) > 1
    }

    /// The defence's moves of the support in a class layout at a turn of theirs, in order.
    pub(crate) fn answers(&self, layout: &ReachedLayout<'a>) -> ArrayVec<ClassMove, MOST_NEXT>
        requires { IsSomeReach self.now }
        ensures { Reached self.now (λ question support history.
            Contains self.now.layouts.items layout.now
            → is_defences (class_turn (class_after question history)) ≡ true
            → result.items ≡ supported_moves question support (counts_at question layout.now.index) history) }
    {
        let mut moves = ArrayVec::new();
        for child in self.node.children() {
            if self.their_has(layout, child) {
                moves.push(child.mv());
            }
        }
        moves
    }

    /// The class history with one move more, by which play goes on to a node below, where it is reached.
    pub(crate) fn child(&self, child: &Node<'a>) -> Option<Reach<'a>>
        requires below { Contains (children_of self.now.node) child.now }
        requires reached { IsSomeReach self.now }
        ensures some { Reached self.now (λ question support history.
            is_some result ≡ goes_on question support history child.now) }
        ensures next { IfSome result (λ next. Reached self.now (λ question support history.
            IsReach question support (history ++ move_of child.now ∷ []) next)) }
        ensures node { IfSome result (λ next. next.node ≡ child.now) }
    {
        if !self.goes_on(child) {
            return None;
        }
        Some(Reach {
            node: *child,
            all: self.all,
            own: mark_after(self.own, child.mv()),
            layouts: self.layouts_after(child),
        })
    }

    // Whether play goes on to a node below in some class layout. It is asked before the list of these is filled.
    fn goes_on(&self, child: &Node<'a>) -> bool
        ensures { result ≡ list_any (λ layout. goes_in self.now layout child.now) self.now.layouts.items }
    {
        for layout in self.layouts() {
            if self.goes_in(layout, child) {
                return true;
            }
        }
        false
    }

    // Whether a move of declarer's is named, or is the first one.
    fn own_has(&self, mv: ClassMove) -> bool
        ensures { result ≡ own_has self.now mv }
    {
        self.all || names_here(self.own, mv) || is_first_of(self.node.children(), mv)
    }

    // Whether a class layout may go to a node below, by a move that is named or the first one.
    fn their_has(&self, layout: &ReachedLayout<'a>, child: &Node<'a>) -> bool
        ensures { result ≡ their_has self.now layout.now child.now }
    {
        let mv = child.mv();
        child.holds(layout.index)
            && (self.all
                || names_here(layout.named, mv)
                || is_first_for(self.node.children(), layout.index, mv))
    }

    // Whether play goes on to a node below in a class layout.
    fn goes_in(&self, layout: &ReachedLayout<'a>, child: &Node<'a>) -> bool
        ensures { result ≡ goes_in self.now layout.now child.now }
    {
        if is_declarers(self.node.turn()) {
            self.own_has(child.mv())
        } else {
            self.their_has(layout, child)
        }
    }

    // The class layouts in which play goes on to a node below, after the move to it.
    fn layouts_after(&self, child: &Node<'a>) -> ArrayVec<ReachedLayout<'a>, MOST_CLASS_LAYOUTS>
        requires { IsSomeReach self.now }
        ensures { map layout_seen result.items ≡ layouts_after self.now child.now }
    {
        let mv = child.mv();
        let mut after = ArrayVec::new();
        for layout in self.layouts() {
            if self.goes_in(layout, child) {
                after.push(ReachedLayout {
                    index: layout.index,
                    named: mark_after(layout.named, mv),
                });
            }
        }
        after
    }
}
