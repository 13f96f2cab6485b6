//! Laws of the game: each is the contract of an empty function.
ghost use Rattle.suit_game.specs.GainLaws.{GainsAreFractions, MeanLaw, OneTrickIsSettled, PaysAreBetween};
ghost use Rattle.suit_game.specs.GainLaws.{PaysAreFractions};
ghost use Rattle.suit_game.specs.PlayLaws.{EnoughMoves, HistoriesAreShort, HistoriesUseRoom, LayoutsAreDeals};
ghost use Rattle.suit_game.specs.PlayLaws.{LegalMovesExtend, PayWhereEnded, PayWhereOn, PlacesAreReached};
ghost use Rattle.suit_game.specs.PlayLaws.{PlayedIsLegal, RoomFalls, ThirteenTricks, TricksTakeOneCardEach};
ghost use Rattle.suit_game.specs.PlayLaws.{TricksUseUpHands, WonStaysWithin, WonTricksFit};

/// Each legal move leaves less room for further ones.
pub fn room_falls()
    ensures { RoomFalls }
{}

/// A history has at most as many moves as the room that it has used up.
pub fn histories_use_room()
    ensures { HistoriesUseRoom }
{}

/// No legal history has more than 52 moves, where declarer's hands are holdings that share no card.
pub fn histories_are_short()
    ensures { HistoriesAreShort }
{}

/// A legal history stays legal as a legal move is added.
pub fn legal_moves_extend()
    ensures { LegalMovesExtend }
{}

/// What a side plays is legal.
pub fn played_is_legal()
    ensures { PlayedIsLegal }
{}

/// More moves than there is room for pay no more.
pub fn enough_moves()
    ensures { EnoughMoves }
{}

/// At an end a play pays its payoff.
pub fn pay_where_ended()
    ensures { PayWhereEnded }
{}

/// Where a play goes on, it pays the mean of what the moves played lead to.
pub fn pay_where_on()
    ensures { PayWhereOn }
{}

/// Under each layout the hands are a deal.
pub fn layouts_are_deals()
    ensures { LayoutsAreDeals }
{}

/// A whole trick takes a card from each hand of declarer that has one, and declarer wins it or not.
pub fn tricks_take_one_card_each()
    ensures { TricksTakeOneCardEach }
{}

/// No card goes twice, the trick in progress makes sense, and four moves make a trick.
pub fn places_are_reached()
    ensures { PlacesAreReached }
{}

/// Each finished trick has used up a card of declarer's longer hand.
pub fn tricks_use_up_hands()
    ensures { TricksUseUpHands }
{}

/// The tricks won and the longer hand left fit into the longer hand dealt.
pub fn won_tricks_fit()
    ensures { WonTricksFit }
{}

/// Declarer wins thirteen tricks at most.
pub fn thirteen_tricks()
    ensures { ThirteenTricks }
{}

/// As play goes on, the tricks won do not fall, and together with the longer hand left they do not rise.
pub fn won_stays_within()
    ensures { WonStaysWithin }
{}

/// The sum of the weights times the mean is the weighted sum.
pub fn mean_law()
    ensures { MeanLaw }
{}

/// A pay lies between bounds of the payoffs that can be reached.
pub fn pays_are_between()
    ensures { PaysAreBetween }
{}

/// No pay has a denominator of 0.
pub fn pays_are_fractions()
    ensures { PaysAreFractions }
{}

/// No gain has a denominator of 0 where some layout has a weight.
pub fn gains_are_fractions()
    ensures { GainsAreFractions }
{}

/// Where no declarer hand has two cards and some layout has a weight, a plan and a defence with no rows settle the
/// question.
pub fn one_trick_is_settled()
    ensures { OneTrickIsSettled }
{}
