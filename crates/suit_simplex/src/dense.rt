//! A tableau that keeps every number, row after row, in one list.
ghost use Rattle.std.specs.Prelude.{◌≡◌, ◌≢◌, ℕ, suc, ◌+◌, ◌*◌, ◌<◌, ◌≤◌, ◌↔◌, ℤ, pos, ◌<ℤ◌, IsTrue, IfOk, length, All};
ghost use Rattle.std.specs.Prelude.{Contains, Some, None, slice_get, option_map, IsOk, OnOk, SomeIff, int_lt, position};
ghost use Rattle.std.specs.Prelude.{◌||◌, ◌&&◌, ◌*ℤ◌, [], ◌∷◌};
ghost use Rattle.std.specs.List.{list_all};
ghost use Rattle.std.specs.Option.{ForSome};
ghost use Rattle.std.specs.Result.{OkIff};
ghost use Rattle.std.specs.Ordering.{int_eq};
ghost use Rattle.suit_num.specs.Narrow.{IsNarrow};
ghost use Rattle.suit_linear.specs.Tableaus.{TableauRow, first_tableau, bound, entry, reduced_cost};
ghost use Rattle.suit_linear.specs.Pivots.{entering, leaving, pivoted, pivoting, pivoted_row, pivoting_row, cleared};
ghost use Rattle.suit_linear.specs.Pivots.{clearing, changing, ratio_products, compared, compared_pair, is_better};
ghost use Rattle.suit_linear.specs.Pivots.{kept, is_narrow};
ghost use Rattle.suit_simplex.specs.Dense.{seen, row_at, leaver_row, with_row, IsKept, KeepsShape, CanClear, CanPivot};

// The rows one after another, each its bound and then its entries, and then the objective row: its
// scale, its value and its entries.
#[derive(Drop)]
pub(crate) struct Dense {
    pub(crate) width: usize,
    pub(crate) numbers: Vec<i128>,
    pub(crate) basics: Vec<usize>,
    // Room for a copy of the leaving row, behind a 0 for the scale.
    pub(crate) leaver: Vec<i128>,
}

use super::row::{TooWide, clear};
use std::cmp::Ordering;
use suit_num::mul;

impl Dense {
    // Where a row begins in the numbers, or the objective row past the last one.
    fn start(&self, index: usize) -> usize
        requires kept { IsKept self.now }
        requires within { index ≤ length self.now.basics.items }
        ensures value { result ≡ index * self.now.width }
        ensures row { index < length self.now.basics.items → result + self.now.width ≤ length self.now.numbers.items }
        ensures objective { index ≡ length self.now.basics.items
            → result + suc self.now.width ≡ length self.now.numbers.items }
    {
        index * self.width
    }

    fn row(&self, index: usize) -> &[i128]
        requires kept { IsKept self.now }
        requires within { index < length self.now.basics.items }
        ensures value { result.now ≡ (row_at self.now index).numbers }
        ensures len { length result.now ≡ self.now.width }
        ensures narrow { All IsNarrow result.now }
    {
        let start = self.start(index);
        &self.numbers[start..start + self.width]
    }

    #[tactic(auto, unfolding(crate::specs::Dense::seen))]
    pub(crate) fn objective(&self) -> &[i128]
        requires { IsKept self.now }
        ensures value { result.now ≡ (seen self.now).objective }
        ensures len { length result.now ≡ suc self.now.width }
        ensures narrow { All IsNarrow result.now }
    {
        &self.numbers[self.start(self.basics.len())..]
    }

    // The column that enters, if one does.
    pub(crate) fn entering(&self) -> Option<usize>
        requires { IsKept self.now }
        ensures { result ≡ entering (seen self.now) }
    {
        first_negative(&self.objective()[2..])
    }

    pub(crate) fn bound(&self, index: usize) -> i128
        requires kept { IsKept self.now }
        requires within { index < length self.now.basics.items }
        ensures value { result ≡ bound (row_at self.now index) }
        ensures narrow { IsNarrow result }
    {
        self.row(index)[0]
    }

    pub(crate) fn entry(&self, index: usize, column: usize) -> i128
        requires kept { IsKept self.now }
        requires column { suc column < self.now.width }
        requires within { index < length self.now.basics.items }
        ensures value { result ≡ entry (row_at self.now index) column }
        ensures narrow { IsNarrow result }
    {
        self.row(index)[column + 1]
    }

    // The index of the row that leaves, or None where no row has a positive entry in the column. The
    // error comes where a product is too wide.
    pub(crate) fn leaving(&self, column: usize) -> Result<Option<usize>, TooWide>
        requires kept { IsKept self.now }
        requires column { suc column < self.now.width }
        ensures fits { IsOk result ↔ IsTrue (list_all is_narrow (ratio_products column None (seen self.now).rows)) }
        ensures value { IfOk result (λ index. option_map (row_at self.now) index ≡ leaving (seen self.now) column) }
        ensures within { IfOk result (λ index. ForSome index (λ leaver. leaver < length self.now.basics.items)) }
    {
        let mut best = None;
        for index in 0..self.basics.len() {
            best = self.better(column, best, index)?;
        }
        Ok(best)
    }

    // The better of the best row so far and one more row, by their indices. The error comes where a
    // product is too wide.
    #[tactic(auto, unfolding(suit_linear::specs::Pivots::kept, suit_linear::specs::Pivots::compared))]
    fn better(
        &self,
        column: usize,
        best: Option<usize>,
        index: usize,
    ) -> Result<Option<usize>, TooWide>
        requires kept { IsKept self.now }
        requires column { suc column < self.now.width }
        requires best { ForSome best (λ leader. leader < length self.now.basics.items) }
        requires within { index < length self.now.basics.items }
        ensures fits { IsOk result ↔ IsTrue
            (list_all is_narrow (compared column (option_map (row_at self.now) best) (row_at self.now index))) }
        ensures value { IfOk result (λ next. option_map (row_at self.now) next
            ≡ kept column (option_map (row_at self.now) best) (row_at self.now index)) }
        ensures within { IfOk result (λ next. ForSome next (λ leader. leader < length self.now.basics.items)) }
    {
        let entry = self.entry(index, column);
        if entry <= 0 {
            return Ok(best);
        }
        let Some(leader) = best else {
            return Ok(Some(index));
        };
        if self.is_better(column, leader, index)? {
            Ok(Some(index))
        } else {
            Ok(best)
        }
    }

    // Whether the row at an index takes the place of the best one. The error comes where a product is too
    // wide.
    fn is_better(&self, column: usize, best: usize, index: usize) -> Result<bool, TooWide>
        requires kept { IsKept self.now }
        requires column { suc column < self.now.width }
        requires best { best < length self.now.basics.items }
        requires within { index < length self.now.basics.items }
        ensures { OkIff result (IsTrue
            (list_all is_narrow (compared_pair column (row_at self.now best) (row_at self.now index))))
            (is_better column (row_at self.now best) (row_at self.now index)) }
    {
        let lower = self.basics[index] < self.basics[best];
        let entry = self.entry(index, column);
        let best_entry = self.entry(best, column);
        is_before(
            self.bound(index),
            entry,
            self.bound(best),
            best_entry,
            lower,
        )
        .ok_or(TooWide)
    }

    // The pivot on a column and the row at an index. The error comes where a number is too wide, and
    // then nothing is said of the tableau.
    pub(crate) fn pivot(&mut self, column: usize, index: usize) -> Result<(), TooWide>
        requires kept { IsKept self.old }
        requires column { suc column < self.old.width }
        requires within { index < length self.old.basics.items }
        requires can { CanPivot (seen self.old) column (row_at self.old index) }
        ensures fits { IsOk result ↔ IsTrue
            (list_all is_narrow (changing (seen self.old) column (row_at self.old index))) }
        ensures value { OnOk result (seen self.new ≡ pivoted (seen self.old) column (row_at self.old index)) }
        ensures kept { OnOk result (IsKept self.new) }
        ensures width { OnOk result (self.new.width ≡ self.old.width) }
    {
        let leaving = self.basics[index];
        self.copy_leaver(index);
        for other in 0..self.basics.len() {
            self.pivot_row(column, leaving, other)?;
        }
        self.pivot_objective(column)
    }

    // The row at an index after the pivot, in place. The error comes where a number is too wide, and
    // then nothing is said of the tableau.
    fn pivot_row(&mut self, column: usize, leaving: usize, index: usize) -> Result<(), TooWide>
        requires kept { IsKept self.old }
        requires column { suc column < self.old.width }
        requires within { index < length self.old.basics.items }
        requires positive { pos 0 <ℤ entry (leaver_row self.old leaving) column }
        requires some { (row_at self.old index).basic ≢ leaving
            → CanClear (entry (leaver_row self.old leaving) column) (entry (row_at self.old index) column)
            (row_at self.old index).numbers (leaver_row self.old leaving).numbers }
        ensures fits { IsOk result ↔ IsTrue
            (list_all is_narrow (pivoting_row column (leaver_row self.old leaving) (row_at self.old index))) }
        ensures row { OnOk result (seen self.new
            ≡ with_row (seen self.old) index
            (pivoted_row column (leaver_row self.old leaving) (row_at self.old index))) }
        ensures kept { OnOk result (IsKept self.new) }
        ensures shape { OnOk result (KeepsShape self.old self.new) }
    {
        if self.basics[index] == leaving {
            self.basics[index] = column;
            return Ok(());
        }
        let entry = self.entry(index, column);
        if entry == 0 {
            return Ok(());
        }
        let start = self.start(index);
        let pivot = self.leaver[column + 2];
        let likely = self.basics[index] + 1;
        let row = &mut self.numbers[start..start + self.width];
        clear(row, &self.leaver[1..], pivot, entry, likely)
    }

    fn pivot_objective(&mut self, column: usize) -> Result<(), TooWide>
        requires kept { IsKept self.old }
        requires column { suc column < self.old.width }
        requires positive { pos 0 <ℤ entry (leaver_row self.old 0) column }
        requires some { CanClear (entry (leaver_row self.old 0) column) (reduced_cost (seen self.old) column)
            (seen self.old).objective self.old.leaver.items }
        ensures fits { IsOk result ↔ IsTrue
            (list_all is_narrow
            (clearing (entry (leaver_row self.old 0) column) (reduced_cost (seen self.old) column)
            (seen self.old).objective self.old.leaver.items)) }
        ensures objective { OnOk result (seen self.new
            ≡ record (seen self.old) {
              objective = cleared (entry (leaver_row self.old 0) column) (reduced_cost (seen self.old) column)
                  (seen self.old).objective self.old.leaver.items;
            }) }
        ensures kept { OnOk result (IsKept self.new) }
        ensures width { OnOk result (self.new.width ≡ self.old.width) }
    {
        let entry = self.reduced_cost(column);
        let start = self.start(self.basics.len());
        let pivot = self.leaver[column + 2];
        let objective = &mut self.numbers[start..];
        clear(objective, &self.leaver, pivot, entry, 0)
    }

    fn reduced_cost(&self, column: usize) -> i128
        requires kept { IsKept self.now }
        requires column { suc column < self.now.width }
        ensures value { result ≡ reduced_cost (seen self.now) column }
        ensures narrow { IsNarrow result }
    {
        self.objective()[column + 2]
    }

    // The copy of the row at an index becomes that of the leaving row.
    fn copy_leaver(&mut self, index: usize)
        requires kept { IsKept self.old }
        requires within { index < length self.old.basics.items }
        ensures kept { IsKept self.new }
        ensures same { seen self.new ≡ seen self.old }
        ensures count { length self.new.basics.items ≡ length self.old.basics.items }
        ensures width { self.new.width ≡ self.old.width }
        ensures leaver { self.new.leaver.items ≡ pos 0 ∷ (row_at self.old index).numbers }
    {
        let start = self.start(index);
        self.leaver[1..].copy_from_slice(&self.numbers[start..start + self.width]);
    }
}

fn first_negative(costs: &[i128]) -> Option<usize>
    ensures { result ≡ position (λ cost. int_lt cost (pos 0)) costs.now }
{
    costs.iter().position(|cost| *cost < 0)
}

// Whether the ratio of a bound to its entry is less than that of the best row, or the same with a
// lower basic column. There is no answer where a product is too wide.
fn is_before(
    bound: i128,
    entry: i128,
    best_bound: i128,
    best_entry: i128,
    lower: bool,
) -> Option<bool>
    ensures { SomeIff result (IsTrue (list_all is_narrow ((bound *ℤ best_entry) ∷ (best_bound *ℤ entry) ∷ [])))
        (int_lt (bound *ℤ best_entry) (best_bound *ℤ entry)
        || (int_eq (bound *ℤ best_entry) (best_bound *ℤ entry) && lower)) }
{
    let ratio = mul(bound, best_entry)?;
    let least = mul(best_bound, entry)?;
    Some(precedes(ratio, least, lower))
}

fn precedes(ratio: i128, least: i128, lower: bool) -> bool
    ensures { result ≡ int_lt ratio least || (int_eq ratio least && lower) }
{
    match ratio.cmp(&least) {
        Ordering::Less => true,
        Ordering::Equal => lower,
        Ordering::Greater => false,
    }
}
