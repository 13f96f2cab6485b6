//! Laws of the class game: each is the contract of a small function.
ghost use Rattle.std.specs.Prelude.{◌≡◌};
ghost use Rattle.suit_classes.specs.Agreement.{AllowedMoves, ClassGameAgrees, ClassHistoriesAreShort};
ghost use Rattle.suit_classes.specs.Agreement.{ClassPlacesTellCards, ClassesAreRuns, CountsAlike, CountsByBlocks};
ghost use Rattle.suit_classes.specs.Agreement.{CountsTellMoves, DecidedStays, LayoutsAllowNone};
ghost use Rattle.suit_classes.specs.MoveOrder.{ClassMovesRise, EveryMoveRises, stands_before};

use super::ClassMove;

/// Two ranks are of one class exactly where all ranks between them were held alike.
pub fn classes_are_runs()
    ensures { ClassesAreRuns }
{}

/// Class moves are ordered: leads of North, leads of South, follows, each with class numbers rising, and last showing
/// out.
pub fn moves_are_ordered(here: &ClassMove, there: &ClassMove) -> bool
    ensures { result ≡ stands_before here.now there.now }
{
    here < there
}

/// The place after a class history agrees with each legal history that merges to it, under each layout.
pub fn class_game_agrees()
    ensures { ClassGameAgrees }
{}

/// What a class place tells of its class history is what the cards say, whichever legal history merges to it.
pub fn class_places_tell_cards()
    ensures { ClassPlacesTellCards }
{}

/// Layouts of the same counts have the same class moves after histories that merge alike.
pub fn counts_tell_moves()
    ensures { CountsTellMoves }
{}

/// Past a decided position no play changes what the tricks are worth.
pub fn decided_stays()
    ensures { DecidedStays }
{}

/// No class history that is allowed has more than `MOST_MOVES`.
pub fn class_histories_are_short()
    ensures { ClassHistoriesAreShort }
{}

/// The counts of each layout allow the empty history.
pub fn layouts_allow_none()
    ensures { LayoutsAllowNone }
{}

/// Counts allow a history with one more move exactly where they allow the history, and the move is a class move for
/// them.
pub fn allowed_moves()
    ensures { AllowedMoves }
{}

/// West's counts are how many cards he holds of each block of the missing cards.
pub fn counts_by_blocks()
    ensures { CountsByBlocks }
{}

/// West's counts by blocks of the missing cards, of which class layouts are made, are his counts in the class game.
pub fn counts_alike()
    ensures { CountsAlike }
{}

/// The moves at a class place rise by the order of class moves, whatever West's counts are.
pub fn class_moves_rise()
    ensures { ClassMovesRise }
{}

/// All class moves, as they are listed, rise by the order of class moves.
pub fn every_move_rises()
    ensures { EveryMoveRises }
{}
