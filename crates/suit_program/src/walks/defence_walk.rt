//! How a defence is read from the prices of an optimum, in all class layouts by one walk over what is reached.
ghost use Rattle.std.specs.Prelude.{◌≡◌, ◌≤◌, ◌+◌, ◌++◌, ◌*ℤ◌, ◌≤ℤ◌, All, IfOk, OnOk, [], length, map, pos};
ghost use Rattle.std.specs.List.{flat_map};
ghost use Rattle.suit_game.specs.declared.limits.TheConstants.{MOST_TOTAL};
ghost use Rattle.suit_layouts.specs.declared.class_list.TheConstants.{MOST_CLASS_LAYOUTS};
ghost use Rattle.suit_plans.specs.declared.plan.TheConstants.{MOST_DEN};
ghost use Rattle.suit_program.specs.Walks.DefenceLists.{AreAdded, AreDefenceStops, AreDefenceTurns, AreRead, AreShared};
ghost use Rattle.suit_program.specs.Walks.DefenceLists.{AreEmptyLists, AreReaders, rows_of};
ghost use Rattle.suit_program.specs.Walks.DefenceWalks.{IsPricedTree};
ghost use Rattle.suit_program.specs.Supports.Marks.{support_seen};
ghost use Rattle.suit_program.specs.Programs.{limits_at};
ghost use Rattle.suit_program.specs.Walks.Reaches.{Reached};
ghost use Rattle.suit_program.specs.Readings.{defence_of};
ghost use Rattle.suit_program.specs.Walks.{walked};

use crate::Support;
use crate::readings::sharing::all_through;
use crate::walks::answer_rows::rows_here;
use crate::walks::defence_reader::{DefenceReader, past};
use crate::walks::reach::Reach;
use std::alloc::{AllocError, Global};
use suit_classes::ClassMove;
use suit_layouts::ClassLayout;
use suit_plans::{Counts, Defence, DefenceRow, DefenceRows};
use suit_tree::Tree;

/// The defence that is read from the prices of the rows of a support's program over their scale.
pub(crate) fn read_defence(
    alloc: Global,
    tree: &Tree,
    support: &Support,
    prices: &[i128],
    scale: i128,
) -> Result<Defence, AllocError>
    requires { IsPricedTree tree.now support.now prices.now scale }
    ensures { IfOk result (λ defence. (case : IsPricedTree tree.now support.now prices.now scale)
        → defence ≡ defence_of case.question (support_seen case.question support.now) prices.now scale) }
{
    let start = Reach::start(tree, support);
    let layouts = tree.layouts();
    let readers = readers_of(alloc, layouts, prices)?;
    let masses = masses_of(alloc, layouts, scale)?;
    let mut lists = empty_lists(alloc, layouts.len())?;
    let mut history = Vec::new(alloc);
    let walk = DefenceWalk {
        alloc,
        prices,
        readers: readers.as_slice(),
    };
    walk.below(&start, &mut history, 0, &masses, &mut lists)?;
    Ok(Defence {
        den: scale,
        rows: listed(joined(alloc, lists)?)?,
    })
}

// What reads a defence in each class layout.
fn readers_of<'a>(
    alloc: Global,
    layouts: &'a [(ClassLayout, u64)],
    prices: &'a [i128],
) -> Result<Vec<DefenceReader<'a>>, AllocError>
    requires { length layouts.now ≤ MOST_CLASS_LAYOUTS }
    ensures { IfOk result (λ readers. AreReaders layouts.now prices.now (length layouts.now) readers.items) }
{
    let mut readers = Vec::with_capacity(alloc, layouts.len())?;
    for index in 0..layouts.len() {
        readers.push(DefenceReader {
            alloc,
            index: index as u8,
            west: &layouts[index].0,
            prices,
        })?;
    }
    Ok(readers)
}

// The mass of the empty class history in each class layout: a denominator for each unit of its weight.
fn masses_of(
    alloc: Global,
    layouts: &[(ClassLayout, u64)],
    den: i128,
) -> Result<Vec<i128>, AllocError>
    requires few { All (λ layout. layout.1 ≤ MOST_TOTAL) layouts.now }
    requires den { (pos 0 ≤ℤ den) × (den ≤ℤ MOST_DEN) }
    ensures { IfOk result (λ masses. masses.items ≡ map (λ layout. pos layout.1 *ℤ den) layouts.now) }
{
    let mut masses = Vec::with_capacity(alloc, layouts.len())?;
    for index in 0..layouts.len() {
        masses.push(weighed(layouts[index].1, den))?;
    }
    Ok(masses)
}

// A denominator for each unit of a weight.
fn weighed(weight: u64, den: i128) -> i128
    requires few { weight ≤ MOST_TOTAL }
    requires den { (pos 0 ≤ℤ den) × (den ≤ℤ MOST_DEN) }
    ensures { result ≡ pos weight *ℤ den }
{
    weight as i128 * den
}

// So many lists of no rows.
fn empty_lists(alloc: Global, count: usize) -> Result<Vec<Vec<DefenceRow>>, AllocError>
    ensures { IfOk result (λ lists. AreEmptyLists count lists.items) }
{
    let mut lists = Vec::with_capacity(alloc, count)?;
    for _index in 0..count {
        lists.push(Vec::new(alloc))?;
    }
    Ok(lists)
}

// The rows of all lists.
fn joined(alloc: Global, lists: Vec<Vec<DefenceRow>>) -> Result<Vec<DefenceRow>, AllocError>
    ensures { IfOk result (λ all. all.items ≡ flat_map rows_of lists.items) }
{
    let mut all = Vec::new(alloc);
    for list in lists {
        append(&mut all, list)?;
    }
    Ok(all)
}

// Adds rows to a list.
fn append(rows: &mut Vec<DefenceRow>, more: Vec<DefenceRow>) -> Result<(), AllocError>
    ensures { OnOk result (rows.new.items ≡ rows.old.items ++ more.items) }
{
    for row in more {
        rows.push(row)?;
    }
    Ok(())
}

// The list of these rows. Where there are more than it may have, there is no memory for it.
fn listed(rows: Vec<DefenceRow>) -> Result<DefenceRows, AllocError>
    ensures { IfOk result (λ list. list ≡ rows.items) }
{
    if rows.len() > u32::MAX as usize {
        return Err(AllocError);
    }
    Ok(DefenceRows::of(rows))
}

/// Reads a defence in all class layouts.
#[derive(Drop)]
pub(crate) struct DefenceWalk<'a> {
    pub(crate) alloc: Global,
    pub(crate) prices: &'a [i128],
    pub(crate) readers: &'a [DefenceReader<'a>],
}

impl DefenceWalk<'_> {
    /// Adds the rows from a reached class history on to the lists of their class layouts, with the row of the program
    /// and the masses with which it begins, and answers the row after theirs. The history is given back as it was.
    fn below(
        &self,
        reach: &Reach,
        history: &mut Vec<ClassMove>,
        row: usize,
        masses: &[i128],
        lists: &mut Vec<Vec<DefenceRow>>,
    ) -> Result<usize, AllocError>
        requires stops { AreDefenceStops self.now reach.now history.old.items row masses.now }
        requires lists { length lists.old.items ≡ length self.now.readers.now }
        ensures row { IfOk result (λ after. Reached reach.now (λ question support told.
            after ≡ row + length (walked (limits_at question support) question support told))) }
        ensures lists { OnOk result (length lists.new.items ≡ length lists.old.items) }
        ensures rows { OnOk result (AreRead self.now reach.now history.old.items row masses.now lists.old.items
            lists.new.items) }
        ensures kept { OnOk result (history.new.items ≡ history.old.items) }
    {
        let shares = self.shares(reach, row, masses)?;
        let held = shares.as_slice();
        self.add_rows(history.as_slice(), masses, held, lists)?;
        let mut after = past(self.prices, row, rows_here(reach));
        let node = reach.node();
        for child in node.children() {
            if let Some(next) = reach.child(child) {
                let mv = child.mv();
                let passed = all_through(self.alloc, held, masses, mv)?;
                history.push(mv)?;
                after = self.below(&next, history, after, &passed, lists)?;
                history.pop();
            }
        }
        Ok(after)
    }

    // How the mass is shared out at a class history, in each class layout.
    fn shares(
        &self,
        reach: &Reach,
        row: usize,
        masses: &[i128],
    ) -> Result<Vec<Option<Counts>>, AllocError>
        requires { AreDefenceTurns self.now reach.now row masses.now }
        ensures long { IfOk result (λ shares. length shares.items ≡ length self.now.readers.now) }
        ensures each { IfOk result (λ shares. AreShared self.now reach.now row masses.now
            (length self.now.readers.now) shares.items) }
    {
        let mut shares = Vec::with_capacity(self.alloc, self.readers.len())?;
        for index in 0..self.readers.len() {
            let held = self.readers[index].shares(reach, row, masses[index])?;
            shares.push(held)?;
        }
        Ok(shares)
    }

    // Adds to each list the row that the shares want, if they do.
    fn add_rows(
        &self,
        history: &[ClassMove],
        masses: &[i128],
        shares: &[Option<Counts>],
        lists: &mut Vec<Vec<DefenceRow>>,
    ) -> Result<(), AllocError>
        requires masses { length masses.now ≡ length self.now.readers.now }
        requires shares { length shares.now ≡ length self.now.readers.now }
        requires lists { length lists.old.items ≡ length self.now.readers.now }
        ensures lists { OnOk result (length lists.new.items ≡ length lists.old.items) }
        ensures added { OnOk result (AreAdded self.now history.now masses.now shares.now
            (length self.now.readers.now) lists.old.items lists.new.items) }
    {
        for index in 0..self.readers.len() {
            let reader = &self.readers[index];
            reader.add_row(history, masses[index], &shares[index], &mut lists[index])?;
        }
        Ok(())
    }
}
