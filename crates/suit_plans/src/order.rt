//! In what order class histories and West's counts stand.
ghost use Rattle.std.specs.Prelude.{◌≡◌, bytes_eq};
ghost use Rattle.suit_plans.specs.Orders.{counts_before, history_before, same_class_history};

use suit_classes::ClassMove;

/// Whether a class history stands before another: by their moves, and a beginning before the longer one.
pub(crate) fn history_is_before(here: &[ClassMove], there: &[ClassMove]) -> bool
    ensures { result ≡ history_before here.now there.now }
{
    here < there
}

/// Whether two class histories are the same.
pub(crate) fn is_same_history(here: &[ClassMove], there: &[ClassMove]) -> bool
    ensures { result ≡ same_class_history here.now there.now }
{
    here == there
}

/// Whether West's counts stand before others, in lexicographic order.
pub(crate) fn counts_are_before(here: &[u8], there: &[u8]) -> bool
    ensures { result ≡ counts_before here.now there.now }
{
    here < there
}
