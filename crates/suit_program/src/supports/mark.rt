//! What a support names along class histories.
ghost use Rattle.std.specs.Prelude.{◌≡◌, [], IfOk, OnOk, Some, None};
ghost use Rattle.std.specs.Option.{option_copied};
ghost use Rattle.suit_program.specs.Supports.Marks.{AreAlike, IsPlaceOf, NamesMore, NamesNone, last_of, mark_after};
ghost use Rattle.suit_program.specs.Supports.Marks.{mark_by};
ghost use Rattle.suit_program.specs.Supports.Marks.{marks_below, named_on, names_here};

use std::alloc::{AllocError, Global};
use suit_classes::{ClassMove, is_among};

/// The moves that are named at a class history, and the marks of the class histories with one move more.
#[derive(Debug, Drop)]
pub(crate) struct Mark {
    /// The last move of the class history; any at the empty one.
    pub(crate) by: ClassMove,
    /// The moves that are named.
    pub(crate) moves: Vec<ClassMove>,
    /// The marks with one move more.
    pub(crate) next: Vec<Mark>,
}

impl Mark {
    /// Names nothing.
    pub(crate) fn none(alloc: Global, by: ClassMove) -> Mark
        ensures names { NamesNone result }
        ensures last { last_of result ≡ by }
    {
        Mark {
            by,
            moves: Vec::new(alloc),
            next: Vec::new(alloc),
        }
    }

    /// The same marks again.
    ///
    /// # Errors
    ///
    /// Want of memory.
    pub(crate) fn copy(&self, alloc: Global) -> Result<Mark, AllocError>
        ensures { IfOk result (λ mark. AreAlike mark self.now) }
    {
        let mut next = Vec::with_capacity(alloc, self.next.len())?;
        for mark in &self.next {
            next.push(mark.copy(alloc)?)?;
        }
        Ok(Mark {
            by: self.by,
            moves: Vec::from_slice(alloc, &self.moves)?,
            next,
        })
    }

    /// Names a move more, at the class history that goes on from its own by these moves.
    ///
    /// # Errors
    ///
    /// Want of memory.
    pub(crate) fn add(
        &mut self,
        alloc: Global,
        moves: &[ClassMove],
        mv: ClassMove,
    ) -> Result<(), AllocError>
        ensures { OnOk result (NamesMore self.new self.old moves.now mv) }
    {
        match moves {
            [] => self.name(mv),
            [first, later @ ..] => {
                let at = self.place(alloc, *first)?;
                self.next[at].add(alloc, later, mv)
            }
        }
    }

    // Names a move more at its own class history.
    fn name(&mut self, mv: ClassMove) -> Result<(), AllocError>
        ensures { OnOk result (NamesMore self.new self.old [] mv) }
    {
        if !is_among(&self.moves, mv) {
            self.moves.push(mv)?;
        }
        Ok(())
    }

    // Where the mark with one move more stands, which is made if there is none.
    fn place(&mut self, alloc: Global, mv: ClassMove) -> Result<usize, AllocError>
        ensures alike { OnOk result (AreAlike self.new self.old) }
        ensures at { IfOk result (λ at. IsPlaceOf mv (marks_below self.new) at) }
    {
        for at in 0..self.next.len() {
            if self.next[at].by.is_same(mv) {
                return Ok(at);
            }
        }
        let at = self.next.len();
        self.next.push(Mark::none(alloc, mv))?;
        Ok(at)
    }
}

/// Whether a mark names a move at its class history.
pub(crate) fn names_here(mark: Option<&Mark>, mv: ClassMove) -> bool
    ensures { result ≡ names_here (option_copied mark.entry) mv }
{
    match mark {
        Some(mark) => is_among(&mark.moves, mv),
        None => false,
    }
}

/// The mark with one move more, where there is one.
pub(crate) fn mark_after<'a>(mark: Option<&'a Mark>, mv: ClassMove) -> Option<&'a Mark>
    ensures { option_copied result ≡ mark_after (option_copied mark.entry) mv }
{
    match mark {
        Some(mark) => mark_by(&mark.next, mv),
        None => None,
    }
}

// Of some marks the first with this last move.
fn mark_by<'a>(marks: &'a [Mark], mv: ClassMove) -> Option<&'a Mark>
    ensures { option_copied result ≡ mark_by mv marks.now }
{
    for mark in marks {
        if mark.by.is_same(mv) {
            return Some(mark);
        }
    }
    None
}

/// Whether a mark names a move at the class history that goes on from its own by these moves.
pub(crate) fn named_on(mark: Option<&Mark>, moves: &[ClassMove], mv: ClassMove) -> bool
    ensures { result ≡ named_on (option_copied mark.entry) moves.now mv }
{
    let mut at = mark;
    for next in moves {
        at = mark_after(at, *next);
    }
    names_here(at, mv)
}
