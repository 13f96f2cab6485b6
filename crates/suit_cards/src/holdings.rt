//! Holdings: the cards of a suit that a hand holds.
ghost use Rattle.std.specs.Prelude.{◌≡◌, ◌<◌, ◌≤◌, ◌↔◌, [], ◌∷◌, length, Ok, IsTrue, IfOk, IfNone, IfSome, Contains};
ghost use Rattle.std.specs.Prelude.{Any};
ghost use Rattle.std.specs.List.{list_any};
ghost use Rattle.suit_cards.specs.Holdings.{IsHolding, holds, with_rank, without_rank, others_of, text_of};
ghost use Rattle.suit_cards.specs.Ranks.{IsRank};
ghost use Rattle.suit_cards.specs.Reading.{holding_read, BeginsNoRank, BeginsRank};

use crate::ranks::Rank;
use arrayvec::{ArrayString, ArrayVec};
use std::marker::Model;
use thiserror::Error;

/// The bits of all thirteen ranks.
const SUIT: u16 = 0x1fff;

/// Why a text is no holding.
#[derive(Clone, Copy, Debug, PartialEq, Eq, Error)]
pub enum CardFault {
    /// No rank begins at the byte at this index, counted from 0.
    #[error("no rank begins at byte {at}")]
    NotRank { at: usize },
    /// The rank that begins at this index, counted from 0, was read before.
    #[error("the rank at byte {at} was read before")]
    Twice { at: usize },
}

/// Cards of one suit, each at most once, which contracts see as the falling list of their ranks.
#[derive(Clone, Copy, Debug)]
pub struct Holding {
    // The lowest bit is the two, and the thirteenth the ace.
    mask: u16,
}

impl Model for Holding {
    ghost use Rattle.std.specs.Prelude.{◌<◌, ◌^◌};
    ghost use Rattle.suit_cards.specs.Cards.{Cards};

    ghost Value = { Cards };

    ghost use Rattle.suit_cards.specs.Masks.{ranks_of, mask_of, mask_of-ranks_of};

    ghost view = { λ holding. ranks_of holding.mask };

    ghost invariant = { λ holding. holding.mask < 2 ^ 13 };

    ghost inverse = { λ ranks. record { mask = mask_of ranks } };

    ghost inverse_ok = { λ holding small. λ i. record { mask = mask_of-ranks_of holding.mask small i } };
}

impl PartialEq for Holding {
    ghost use Rattle.std.specs.Cmp.{partial_equiv_from_equiv};
    ghost use Rattle.std.specs.Cmp.Lexicographic.{nat_list_eq_equiv};
    ghost use Rattle.suit_cards.specs.Cards.{same_numbers};

    ghost eq = { λ here there. same_numbers here there };

    ghost laws = { partial_equiv_from_equiv nat_list_eq_equiv };

    fn eq(&self, other: &Holding) -> bool {
        self.mask == other.mask
    }
}

impl Eq for Holding {
    ghost use Rattle.std.specs.Cmp.Lexicographic.{nat_list_eq_equiv};

    ghost laws = { nat_list_eq_equiv };
}

impl Default for Holding {
    ghost use Rattle.std.specs.Prelude.{◌≡◌, []};

    ghost is_default = { λ holding. holding ≡ [] };

    /// No card.
    fn default() -> Holding {
        Holding { mask: 0 }
    }
}

impl Holding {
    /// The holding of one card.
    pub fn of(rank: Rank) -> Holding
        ensures value { result ≡ rank ∷ [] }
        ensures holding { IsHolding result }
    {
        Holding::default().with(rank)
    }

    /// Whether the rank is held.
    pub fn has(self, rank: Rank) -> bool
        ensures value { result ≡ holds self rank }
        ensures held { IsTrue result ↔ Contains self rank }
        ensures holding { IsHolding self }
    {
        self.mask >> rank.index() & 1 == 1
    }

    /// The holding with the rank, which it may have already.
    fn with(self, rank: Rank) -> Holding
        ensures value { result ≡ with_rank self rank }
        ensures rank { IsRank rank }
    {
        Holding {
            mask: self.mask | 1 << rank.index(),
        }
    }

    /// The holding without the rank, which it need not have. The others stay in their order.
    pub fn without(self, rank: Rank) -> Holding
        ensures value { result ≡ without_rank self rank }
        ensures holding { IsHolding result }
    {
        Holding {
            mask: self.mask & !(1 << rank.index()),
        }
    }

    /// How many cards are held.
    pub fn len(self) -> u8
        ensures value { result ≡ length self }
        ensures most { result ≤ 13 }
        ensures holding { IsHolding self }
    {
        self.mask.count_ones() as u8
    }

    /// Whether no card is held.
    pub fn is_empty(self) -> bool
        ensures empty { IsTrue result ↔ (self ≡ []) }
        ensures holding { IsHolding self }
    {
        self.mask == 0
    }

    /// Whether some rank is in both holdings.
    pub fn shares(self, other: Holding) -> bool
        ensures value { result ≡ list_any (holds other) self }
        ensures shared { IsTrue result ↔ Any (Contains other) self }
    {
        self.mask & other.mask != 0
    }

    /// The cards of the suit that are in neither holding.
    pub fn others(self, other: Holding) -> Holding
        ensures value { result ≡ others_of self other }
        ensures holding { IsHolding result }
    {
        Holding {
            mask: !(self.mask | other.mask) & SUIT,
        }
    }

    /// The ranks held, falling.
    pub fn ranks(self) -> ArrayVec<Rank, 13>
        ensures value { result.items ≡ self }
        ensures holding { IsHolding self }
    {
        let mut ranks = ArrayVec::new();
        for index in (0..13).rev() {
            if self.mask >> index & 1 == 1 {
                ranks.push(Rank::at(index));
            }
        }
        ranks
    }

    /// The letters of the ranks held, falling, or `-` for no card. `Holding::read` gives the holding back.
    pub fn text(self) -> ArrayString<13>
        ensures value { result.bytes ≡ text_of self }
        ensures reads_back { holding_read result.bytes ≡ Ok self }
    {
        let mut text = ArrayString::new();
        if self.is_empty() {
            text.push('-');
            return text;
        }
        for rank in self.ranks().as_slice() {
            text.push(rank.letter() as char);
        }
        text
    }

    /// Reads a holding as players write it: its letters as they come, capital or small, the ten as `T` or `10`. A dash,
    /// or nothing at all, is an empty hand. A fault is told at the first index that spells no further rank.
    pub fn read(text: &[u8]) -> Result<Holding, CardFault>
        ensures value { result ≡ holding_read text.now }
        ensures holding { IfOk result IsHolding }
    {
        let mut held = Holding::default();
        if text == b"-".as_slice() {
            return Ok(held);
        }
        let mut at = 0;
        while at < text.len() {
            let Some(first) = first_rank(&text[at..]) else {
                return Err(CardFault::NotRank { at });
            };
            if held.has(first.rank) {
                return Err(CardFault::Twice { at });
            }
            held = held.with(first.rank);
            at += first.width;
        }
        Ok(held)
    }
}

/// A rank that begins a text, and how many bytes stand for it.
#[derive(Clone, Copy)]
struct FirstRank {
    rank: Rank,
    width: usize,
}

/// The rank that begins a text, if one does.
fn first_rank(text: &[u8]) -> Option<FirstRank>
    requires { 0 < length text.now }
    ensures none { IfNone result (BeginsNoRank text.now) }
    ensures some { IfSome result (λ first. BeginsRank text.now first.rank first.width) }
{
    if text.starts_with(b"10") {
        // Eight ranks are below the ten.
        return Some(FirstRank {
            rank: Rank::at(8),
            width: 2,
        });
    }
    let rank = Rank::of(text[0])?;
    Some(FirstRank { rank, width: 1 })
}
