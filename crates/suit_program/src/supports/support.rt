//! Supports: at each turn the first move and some more.
ghost use Rattle.std.specs.Prelude.{◌≡◌, ℕ, ◌<◌, ◌||◌, All, IfOk, OnErr, OnOk, Some, length, not, slice_get};
ghost use Rattle.std.specs.List.{list_any};
ghost use Rattle.suit_classes.specs.declared.class_moves.ClassMove.{ClassMove};
ghost use Rattle.suit_classes.specs.ClassMoves.{ClassHistory};
ghost use Rattle.suit_program.specs.Supports.Additions.{are_theirs, has_own, has_theirs};
ghost use Rattle.std.specs.Option.{option_copied};
ghost use Rattle.suit_program.specs.Supports.Marks.{AreLegalIn, defence_mark, named_on, support_seen};
ghost use Rattle.suit_program.specs.Supports.{are_new, first_support, has_declarers, whole_support, with_moves};
ghost use Rattle.suit_game.specs.declared.question.Question.{Question};

use crate::Memory;
use crate::supports::mark::{Mark, named_on};
use crate::supports::node_moves::{children_at, is_first_for, is_first_of};
use std::alloc::{AllocError, Global};
use suit_classes::ClassMove;
use suit_plans::{DeclarerMove, DeclarerMoves, DefenceMove, DefenceMoves};
use suit_tree::Tree;

/// The moves that play may make: at each turn the first one, and those that are named, of declarer's at class
/// histories, and of the defence's at class histories in class layouts. A support knows nothing of a tree: which move
/// is first, and so which moves are in it, is said of the tree that a call is given.
#[derive(Debug, Drop)]
pub struct Support {
    pub(crate) alloc: Global,
    pub(crate) all: bool,
    pub(crate) declarers: Mark,
    pub(crate) defences: Vec<Mark>,
}

impl Support {
    /// The support of first moves alone. It takes no memory.
    pub fn first(alloc: Global) -> Support
        ensures { (question : Question) → support_seen question result ≡ first_support }
    {
        Support {
            alloc,
            all: false,
            declarers: Mark::none(alloc, ClassMove::ShowOut),
            defences: Vec::new(alloc),
        }
    }

    /// The support of all moves.
    ///
    /// # Errors
    ///
    /// Want of memory.
    pub fn whole(alloc: Global, _tree: &Tree) -> Result<Support, Memory>
        ensures { IfOk result (λ support. (question : Question) → support_seen question support ≡ whole_support) }
    {
        let mut support = Support::first(alloc);
        support.all = true;
        Ok(support)
    }

    /// What it names of the defence's moves in the class layout with an index.
    pub(crate) fn defence_mark(&self, index: usize) -> Option<&Mark>
        ensures { option_copied result ≡ defence_mark self.now index }
    {
        self.defences.get(index)
    }

    /// Adds moves, and tells whether one of them was new, as a first move never is. Each is legal for its side at its
    /// place in the tree.
    ///
    /// # Errors
    ///
    /// Want of memory, which leaves the support as it was.
    pub fn add(
        &mut self,
        tree: &Tree,
        declarer: &DeclarerMoves,
        defence: &DefenceMoves,
    ) -> Result<bool, Memory>
        requires { AreLegalIn tree.now declarer.now defence.now }
        ensures new { IfOk result (λ new. (case : AreLegalIn tree.now declarer.now defence.now)
            → new ≡ are_new case.question (support_seen case.question self.old) declarer.now defence.now) }
        ensures added { OnOk result ((case : AreLegalIn tree.now declarer.now defence.now)
            → support_seen case.question self.new
            ≡ with_moves case.question (support_seen case.question self.old) declarer.now defence.now) }
        ensures kept { OnErr result (self.new ≡ self.old) }
    {
        let new = self.lacks(tree, declarer.items(), defence.items());
        let next = self.with(tree.layouts().len(), declarer.items(), defence.items())?;
        *self = next;
        Ok(new)
    }

    // Whether it has not all of some moves.
    fn lacks(&self, tree: &Tree, own: &[DeclarerMove], theirs: &[DefenceMove]) -> bool
        ensures { result ≡ (list_any (λ entry. not (has_own self.now tree.now entry)) own.now
            || list_any (λ entry. not (has_theirs self.now tree.now entry)) theirs.now) }
    {
        self.lacks_own(tree, own) || self.lacks_theirs(tree, theirs)
    }

    // Whether it has not all of some moves of declarer's.
    fn lacks_own(&self, tree: &Tree, own: &[DeclarerMove]) -> bool
        ensures { result ≡ list_any (λ entry. not (has_own self.now tree.now entry)) own.now }
    {
        own.iter().any(|entry| !self.has_own(tree, entry))
    }

    // Whether it has not all of some moves of the defence's.
    fn lacks_theirs(&self, tree: &Tree, theirs: &[DefenceMove]) -> bool
        ensures { result ≡ list_any (λ entry. not (has_theirs self.now tree.now entry)) theirs.now }
    {
        theirs.iter().any(|entry| !self.has_theirs(tree, entry))
    }

    // Whether it has a move of declarer's: one that is named, or the first one.
    fn has_own(&self, tree: &Tree, entry: &DeclarerMove) -> bool
        ensures { result ≡ has_own self.now tree.now entry.now }
    {
        let history = entry.history.items();
        self.all
            || named_on(Some(&self.declarers), history, entry.mv)
            || is_first_of(children_at(tree.root(), history), entry.mv)
    }

    // Whether it has a move of the defence's: one that is named in the class layout, or the first one there.
    fn has_theirs(&self, tree: &Tree, entry: &DefenceMove) -> bool
        ensures { result ≡ has_theirs self.now tree.now entry.now }
    {
        let history = entry.history.items();
        self.all
            || named_on(self.defence_mark(entry.layout as usize), history, entry.mv)
            || is_first_for(children_at(tree.root(), history), entry.layout, entry.mv)
    }

    // The support with more moves, where there are so many class layouts.
    fn with(
        &self,
        count: usize,
        own: &[DeclarerMove],
        theirs: &[DefenceMove],
    ) -> Result<Support, AllocError>
        requires { All (λ entry. entry.layout < count) theirs.now }
        ensures all { IfOk result (λ next. next.all ≡ self.now.all) }
        ensures own { IfOk result (λ next. (history : ClassHistory) (move : ClassMove)
            → named_on (Some next.declarers) history move
            ≡ (named_on (Some self.now.declarers) history move || has_declarers own.now history move)) }
        ensures theirs { IfOk result (λ next. (index : ℕ) (history : ClassHistory) (move : ClassMove) → index < count
            → named_on (defence_mark next index) history move
            ≡ (named_on (defence_mark self.now index) history move || are_theirs theirs.now index history move)) }
    {
        Ok(Support {
            alloc: self.alloc,
            all: self.all,
            declarers: self.with_own(own)?,
            defences: self.with_theirs(count, theirs)?,
        })
    }

    // What it names of declarer's moves, and more.
    fn with_own(&self, own: &[DeclarerMove]) -> Result<Mark, AllocError>
        ensures { IfOk result (λ mark. (history : ClassHistory) (move : ClassMove)
            → named_on (Some mark) history move
            ≡ (named_on (Some self.now.declarers) history move || has_declarers own.now history move)) }
    {
        let mut mark = self.declarers.copy(self.alloc)?;
        for entry in own {
            mark.add(self.alloc, entry.history.items(), entry.mv)?;
        }
        Ok(mark)
    }

    // What it names of the defence's moves in so many class layouts, and more.
    fn with_theirs(&self, count: usize, theirs: &[DefenceMove]) -> Result<Vec<Mark>, AllocError>
        requires { All (λ entry. entry.layout < count) theirs.now }
        ensures { IfOk result (λ marks. (index : ℕ) (history : ClassHistory) (move : ClassMove) → index < count
            → named_on (slice_get marks.items index) history move
            ≡ (named_on (defence_mark self.now index) history move || are_theirs theirs.now index history move)) }
    {
        let mut marks = self.copies(count)?;
        for entry in theirs {
            marks[entry.layout as usize].add(self.alloc, entry.history.items(), entry.mv)?;
        }
        Ok(marks)
    }

    // What it names of the defence's moves in so many class layouts.
    fn copies(&self, count: usize) -> Result<Vec<Mark>, AllocError>
        ensures long { IfOk result (λ marks. length marks.items ≡ count) }
        ensures names { IfOk result (λ marks. (index : ℕ) (history : ClassHistory) (move : ClassMove) → index < count
            → named_on (slice_get marks.items index) history move
            ≡ named_on (defence_mark self.now index) history move) }
    {
        let mut marks = Vec::with_capacity(self.alloc, count)?;
        for index in 0..count {
            marks.push(self.copy_of(index)?)?;
        }
        Ok(marks)
    }

    // What it names of the defence's moves in the class layout with an index.
    fn copy_of(&self, index: usize) -> Result<Mark, AllocError>
        ensures { IfOk result (λ mark. (history : ClassHistory) (move : ClassMove)
            → named_on (Some mark) history move ≡ named_on (defence_mark self.now index) history move) }
    {
        match self.defence_mark(index) {
            Some(mark) => mark.copy(self.alloc),
            None => Ok(Mark::none(self.alloc, ClassMove::ShowOut)),
        }
    }
}
