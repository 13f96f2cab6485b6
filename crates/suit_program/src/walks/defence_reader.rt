//! How a defence is read in a class layout, at one class history.
ghost use Rattle.std.specs.Prelude.{◌≡◌, ◌≤◌, ◌+◌, ◌++◌, IfOk, OnOk, drop, length, take};
ghost use Rattle.suit_program.specs.Walks.AnswerRows.{IsLayoutAt};
ghost use Rattle.suit_program.specs.Walks.DefenceWalks.{IsDefenceTurn, their_row_of, turn_shares};

use crate::readings::sharing::{fill, wants_row, without_nothing};
use crate::walks::answer_rows::{answers_before, place_of};
use crate::walks::reach::Reach;
use arrayvec::ArrayVec;
use std::alloc::{AllocError, Global};
use suit_classes::{ClassMove, History};
use suit_layouts::ClassLayout;
use suit_plans::{Counts, DefenceRow};

/// Reads a defence in a class layout.
#[derive(Drop)]
pub(crate) struct DefenceReader<'a> {
    pub(crate) alloc: Global,
    pub(crate) index: u8,
    pub(crate) west: &'a ClassLayout,
    pub(crate) prices: &'a [i128],
}

impl DefenceReader<'_> {
    /// How the mass is shared out at a class history, where the class layout reaches it and the defence has a choice.
    pub(crate) fn shares(
        &self,
        reach: &Reach,
        row: usize,
        mass: i128,
    ) -> Result<Option<Counts>, AllocError>
        requires { IsDefenceTurn self.now reach.now row mass }
        ensures { IfOk result (λ shares. (turn : IsDefenceTurn self.now reach.now row mass)
            → shares ≡ turn_shares turn) }
    {
        if let Some(place) = place_of(reach, self.index) {
            self.shares_at(reach, place, row, mass)
        } else {
            Ok(None)
        }
    }

    // The same, where the class layout reaches it and stands at a place among those that do.
    fn shares_at(
        &self,
        reach: &Reach,
        place: usize,
        row: usize,
        mass: i128,
    ) -> Result<Option<Counts>, AllocError>
        requires turn { IsDefenceTurn self.now reach.now row mass }
        requires place { IsLayoutAt reach.now.layouts.items place self.now.index }
        ensures { IfOk result (λ shares. (turn : IsDefenceTurn self.now reach.now row mass)
            → shares ≡ turn_shares turn) }
    {
        if reach.chooses(self.index) {
            let moves = reach.answers(&reach.layouts()[place]);
            let first = past(self.prices, row, answers_before(reach, place));
            let prices = part_of(self.prices, first, moves.len());
            let counts = fill(self.alloc, mass, moves.as_slice(), prices)?;
            Ok(Some(Counts::of(counts)))
        } else {
            Ok(None)
        }
    }

    /// Adds the row that the shares of a mass want, if they do.
    pub(crate) fn add_row(
        &self,
        history: &[ClassMove],
        mass: i128,
        shares: &Option<Counts>,
        rows: &mut Vec<DefenceRow>,
    ) -> Result<(), AllocError>
        ensures { OnOk result (rows.new.items
            ≡ rows.old.items ++ their_row_of self.now.west.now history.now mass shares.now) }
    {
        if let Some(shares) = shares {
            if wants_row(mass, shares) {
                rows.push(DefenceRow {
                    west: copied(self.west),
                    history: History::of(Vec::from_slice(self.alloc, history)?),
                    counts: without_nothing(self.alloc, shares)?,
                })?;
            }
        }
        Ok(())
    }
}

// So many prices from an index on.
fn part_of(prices: &[i128], start: usize, count: usize) -> &[i128]
    requires { start + count ≤ length prices.now }
    ensures { result.now ≡ take count (drop start prices.now) }
{
    &prices[start..start + count]
}

/// The index after them.
pub(crate) fn past(prices: &[i128], start: usize, count: usize) -> usize
    requires { start + count ≤ length prices.now }
    ensures { result ≡ start + count }
{
    let end = start + count;
    prove!(end <= prices.len());
    end
}

// The same class layout once more.
fn copied(layout: &ClassLayout) -> ClassLayout
    ensures { result ≡ layout.now }
{
    let mut counts = ArrayVec::new();
    for count in layout.counts() {
        counts.push(*count);
    }
    ClassLayout::of(counts)
}
