//! What the definitions of the game come to on examples that were worked out apart from them.
ghost use Rattle.suit_game.specs.Examples.{LayoutsOfTwo, WeightsOfTwo, Totals, LegalWithOneEntry, LegalInAFinesse};
ghost use Rattle.suit_game.specs.Examples.{LegalAfterALoss, AceGains, KingGains, TenaceGains, FinesseGains};
ghost use Rattle.suit_game.specs.Examples.{MixedFinesseGains, MixedFinesseTricks, TenCardsGain, HoldUpGains};
ghost use Rattle.suit_game.specs.Examples.{FinesseOverTenGains, KnownWestGains};

/// The king and the queen lie in four ways.
pub fn layouts_of_two()
    ensures { LayoutsOfTwo }
{}

/// With all places vacant, each way weighs as many deals as there are.
pub fn weights_of_two()
    ensures { WeightsOfTwo }
{}

/// The weights of all layouts of two questions add up to all deals of the vacant places.
pub fn totals()
    ensures { Totals }
{}

/// One entry is spent by one lead from across.
pub fn legal_with_one_entry()
    ensures { LegalWithOneEntry }
{}

/// Leads and follows through a finesse.
pub fn legal_in_a_finesse()
    ensures { LegalInAFinesse }
{}

/// The lead after a trick that the defenders won.
pub fn legal_after_a_loss()
    ensures { LegalAfterALoss }
{}

/// The ace wins the only trick.
pub fn ace_gains()
    ensures { AceGains }
{}

/// The king loses it to the ace.
pub fn king_gains()
    ensures { KingGains }
{}

/// Against defenders who play their first card each time, both tricks are won.
pub fn tenace_gains()
    ensures { TenaceGains }
{}

/// The queen on a low card wins two tricks in 1093 of 2185 weighted deals.
pub fn finesse_gains()
    ensures { FinesseGains }
{}

/// The queen twice as often as the ace.
pub fn mixed_finesse_gains()
    ensures { MixedFinesseGains }
{}

/// The tricks of the same plan.
pub fn mixed_finesse_tricks()
    ensures { MixedFinesseTricks }
{}

/// Ten cards against defenders who play their first card each time.
pub fn ten_cards_gain()
    ensures { TenCardsGain }
{}

/// The same against defenders who keep the king.
pub fn hold_up_gains()
    ensures { HoldUpGains }
{}

/// The finesse where West has only ten vacant places.
pub fn finesse_over_ten_gains()
    ensures { FinesseOverTenGains }
{}

/// A range and few vacant places for West, and rows whose numbers are all 0 or negative.
pub fn known_west_gains()
    ensures { KnownWestGains }
{}
