//! What a row gives to class moves.
ghost use Rattle.std.specs.Prelude.{◌≡◌, ◌==◌, not, option_map, pos, Some};
ghost use Rattle.std.specs.List.{list_all};
ghost use Rattle.suit_lift.specs.Lifts.{class_share, row_count};

use suit_classes::ClassMove;
use suit_plans::{Counts, is_first};

// The count of a move, and 0 without a row or where it is negative, which no count of a proper row is.
fn row_count(row: Option<&Counts>, mv: ClassMove) -> i128
    ensures { result ≡ pos (row_count (option_map (λ shares. shares.now) row.entry) mv) }
{
    match row {
        Some(shares) => shares.count_of(mv).max(0),
        None => 0,
    }
}

// Whether some move has a count.
fn has_count(row: Option<&Counts>, moves: &[ClassMove]) -> bool
    ensures { result
        ≡ not (list_all (λ mv. row_count (option_map (λ shares. shares.now) row.entry) mv == 0) moves.now) }
{
    match row {
        Some(shares) => some_counted(shares, moves),
        None => false,
    }
}

// Whether a row has a count for some move.
fn some_counted(shares: &Counts, moves: &[ClassMove]) -> bool
    ensures { result ≡ not (list_all (λ mv. row_count (Some shares.now) mv == 0) moves.now) }
{
    for mv in moves {
        if shares.count_of(*mv) > 0 {
            return true;
        }
    }
    false
}

/// The share of a move among those that the legal moves merge to: its count, and where none of them
/// has one, 1 for the first.
pub(crate) fn class_share(row: Option<&Counts>, moves: &[ClassMove], mv: ClassMove) -> i128
    ensures { result ≡ pos (class_share (option_map (λ shares. shares.now) row.entry) moves.now mv) }
{
    if has_count(row, moves) {
        row_count(row, mv)
    } else if is_first(moves, mv) {
        1
    } else {
        0
    }
}
