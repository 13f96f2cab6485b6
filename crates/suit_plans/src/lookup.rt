//! The rows of a plan or a defence at a class history.
ghost use Rattle.std.specs.Prelude.{◌≡◌, ◌&&◌, bytes_eq, false, option_map, true};
ghost use Rattle.std.specs.List.Sorted.{IsPartitionPoint};
ghost use Rattle.suit_plans.specs.Masses.{defence_shares_at, plan_shares_at};
ghost use Rattle.suit_plans.specs.Orders.{InOrder, defence_row_before, history_before, key_before, plan_row_before};
ghost use Rattle.suit_plans.specs.Orders.{same_class_history};

use super::order::{counts_are_before, history_is_before, is_same_history};
use super::{Counts, DefenceRow, Row};
use suit_classes::ClassMove;

// Where the rows of a plan end that stand before a class history.
fn plan_place(rows: &[Row], history: &[ClassMove]) -> usize
    requires { InOrder plan_row_before rows.now }
    ensures { IsPartitionPoint (λ row. history_before row.history history.now
        ≡ true) (λ row. history_before row.history history.now ≡ false) rows.now result }
{
    rows.partition_point(|row| history_is_before(row.history.items(), history))
}

/// The shares of a plan's row at a class history, where the rows stand in order.
pub fn plan_shares_at<'a>(rows: &'a [Row], history: &[ClassMove]) -> Option<&'a Counts>
    requires { InOrder plan_row_before rows.now }
    ensures { option_map (λ shares. shares.now) result ≡ plan_shares_at rows.now history.now }
{
    let row = rows.get(plan_place(rows, history))?;
    if is_same_history(row.history.items(), history) {
        Some(&row.counts)
    } else {
        None
    }
}

/// Whether a row of a defence stands before the place of a class layout and a class history.
pub(crate) fn is_row_before(row: &DefenceRow, counts: &[u8], history: &[ClassMove]) -> bool
    ensures { result ≡ key_before row.now.west row.now.history counts.now history.now }
{
    let here = row.west.counts();
    counts_are_before(here, counts)
        || (here == counts && history_is_before(row.history.items(), history))
}

// Whether a row of a defence is for a class layout and a class history.
fn is_row_of(row: &DefenceRow, counts: &[u8], history: &[ClassMove]) -> bool
    ensures { result ≡ (bytes_eq row.now.west counts.now && same_class_history row.now.history history.now) }
{
    row.west.counts() == counts && is_same_history(row.history.items(), history)
}

// Where the rows of a defence end that stand before a class layout and a class history.
fn defence_place(rows: &[DefenceRow], counts: &[u8], history: &[ClassMove]) -> usize
    requires { InOrder defence_row_before rows.now }
    ensures { IsPartitionPoint (λ row. key_before row.west row.history counts.now history.now
        ≡ true) (λ row. key_before row.west row.history counts.now history.now ≡ false) rows.now result }
{
    rows.partition_point(|row| is_row_before(row, counts, history))
}

/// The shares of a defence's row for a class layout at a class history, where the rows stand in order.
pub fn defence_shares_at<'a>(
    rows: &'a [DefenceRow],
    counts: &[u8],
    history: &[ClassMove],
) -> Option<&'a Counts>
    requires { InOrder defence_row_before rows.now }
    ensures { option_map (λ shares. shares.now) result ≡ defence_shares_at rows.now counts.now history.now }
{
    let row = rows.get(defence_place(rows, counts, history))?;
    if is_row_of(row, counts, history) {
        Some(&row.counts)
    } else {
        None
    }
}
