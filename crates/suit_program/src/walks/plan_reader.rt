//! How a plan is read from the parts of an optimum.
ghost use Rattle.std.specs.Prelude.{◌≡◌, ◌+◌, ◌≤◌, ◌++◌, IfOk, OnOk, drop, length, take};
ghost use Rattle.suit_program.specs.Walks.PlanWalks.{IsPlanStop, IsPlanTurn, reading_of, row_here, row_of_shares};
ghost use Rattle.suit_program.specs.Walks.PlanWalks.{shares_here};
ghost use Rattle.suit_program.specs.Programs.{columns_at};
ghost use Rattle.suit_program.specs.Walks.{walked};

use crate::readings::sharing::{scaled_counts, through, top_up, wants_row, without_nothing};
use crate::walks::columns::columns_here;
use crate::walks::reach::Reach;
use std::alloc::{AllocError, Global};
use suit_classes::{ClassMove, History};
use suit_num::Frac;
use suit_plans::{Counts, Row};

/// Reads a plan: its denominator, and the parts in the columns of an optimum.
#[derive(Drop)]
pub(crate) struct PlanReader<'a> {
    pub(crate) alloc: Global,
    pub(crate) den: i128,
    pub(crate) parts: &'a [Frac],
}

impl PlanReader<'_> {
    /// Adds the rows from a reached class history on, with the column and the mass with which it begins, and answers
    /// the column after theirs. The history is given back as it was.
    pub(crate) fn below(
        &self,
        reach: &Reach,
        history: &mut Vec<ClassMove>,
        column: usize,
        mass: i128,
        rows: &mut Vec<Row>,
    ) -> Result<usize, AllocError>
        requires { IsPlanStop self.now reach.now history.old.items column mass }
        ensures column { IfOk result (λ after. (stop : IsPlanStop self.now reach.now history.old.items column mass)
            → after ≡ column + length (walked (columns_at stop.turn.question stop.turn.support) stop.turn.question
            stop.turn.support stop.turn.history)) }
        ensures rows { OnOk result ((stop : IsPlanStop self.now reach.now history.old.items column mass)
            → rows.new.items ≡ rows.old.items ++ walked (row_here (reading_of stop.turn.question stop.turn.support
            stop.turn.optimum)) stop.turn.question stop.turn.support stop.turn.history) }
        ensures kept { OnOk result (history.new.items ≡ history.old.items) }
    {
        let shares = self.shares(reach, column, mass)?;
        self.add_row(history, mass, &shares, rows)?;
        let mut after = past(self.parts, column, columns_here(reach));
        let held = shares.as_ref();
        let node = reach.node();
        for child in node.children() {
            if let Some(next) = reach.child(child) {
                let mv = child.mv();
                let passed = through(held, mass, mv);
                history.push(mv)?;
                after = self.below(&next, history, after, passed, rows)?;
                history.pop();
            }
        }
        Ok(after)
    }

    // How the mass is shared out at a class history, where declarer has a choice.
    fn shares(&self, reach: &Reach, column: usize, mass: i128) -> Result<Option<Counts>, AllocError>
        requires { IsPlanTurn self.now reach.now column mass }
        ensures { IfOk result (λ shares. (turn : IsPlanTurn self.now reach.now column mass)
            → shares ≡ shares_here (reading_of turn.question turn.support turn.optimum) turn.history) }
    {
        if reach.declarer_chooses() {
            let moves = reach.own_moves();
            let parts = part_of(self.parts, column, moves.len());
            let mut counts = scaled_counts(self.alloc, self.den, moves.as_slice(), parts)?;
            top_up(mass, &mut counts);
            Ok(Some(Counts::of(counts)))
        } else {
            Ok(None)
        }
    }

    // Adds the row that the shares of a mass want, if they do.
    fn add_row(
        &self,
        history: &[ClassMove],
        mass: i128,
        shares: &Option<Counts>,
        rows: &mut Vec<Row>,
    ) -> Result<(), AllocError>
        ensures { OnOk result (rows.new.items ≡ rows.old.items ++ row_of_shares history.now mass shares.now) }
    {
        if let Some(shares) = shares {
            if wants_row(mass, shares) {
                rows.push(Row {
                    history: History::of(Vec::from_slice(self.alloc, history)?),
                    counts: without_nothing(self.alloc, shares)?,
                })?;
            }
        }
        Ok(())
    }
}

// So many parts from an index on.
fn part_of(parts: &[Frac], start: usize, count: usize) -> &[Frac]
    requires { start + count ≤ length parts.now }
    ensures { result.now ≡ take count (drop start parts.now) }
{
    &parts[start..start + count]
}

// The index after them.
fn past(parts: &[Frac], start: usize, count: usize) -> usize
    requires { start + count ≤ length parts.now }
    ensures { result ≡ start + count }
{
    let end = start + count;
    prove!(end <= parts.len());
    end
}
