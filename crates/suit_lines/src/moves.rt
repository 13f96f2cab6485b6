//! The moves that class layouts have at a place.
ghost use Rattle.std.specs.Prelude.{◌≡◌, IfOk, map};
ghost use Rattle.std.specs.List.{list_any};
ghost use Rattle.suit_classes.specs.WhatIsAllowed.{every_move, is_among};
ghost use Rattle.suit_classes.specs.ClassPlaces.{class_moves};
ghost use Rattle.suit_lines.specs.Walks.{having, moves_for};

use super::Memory;
use arrayvec::ArrayVec;
use std::alloc::Global;
use suit_cards::Seat;
use suit_classes::{ClassMove, ClassPlace, MOST_CLASSES, is_among};
use suit_layouts::ClassLayout;

/// The moves that some of these class layouts have at a place, in their order, and none where it is decided.
pub(crate) fn moves_for(
    alloc: Global,
    place: &ClassPlace,
    layouts: &[&ClassLayout],
) -> Result<Vec<ClassMove>, Memory>
    ensures { IfOk result (λ moves. moves.items ≡ moves_for place.now (map (λ layout. layout.now) layouts.now)) }
{
    let mut moves = Vec::new(alloc);
    if place.decided() {
        return Ok(moves);
    }
    let offers = offers_at(alloc, place, layouts)?;
    for mv in every_move().as_slice() {
        if is_offered(&offers, *mv) {
            moves.push(*mv)?;
        }
    }
    Ok(moves)
}

/// Those of some class layouts that have a move at a place.
pub(crate) fn having<'a>(
    alloc: Global,
    place: &ClassPlace,
    layouts: &[&'a ClassLayout],
    mv: ClassMove,
) -> Result<Vec<&'a ClassLayout>, Memory>
    ensures { IfOk result (λ kept. map (λ layout. layout.now) kept.items
        ≡ having place.now (map (λ layout. layout.now) layouts.now) mv) }
{
    let mut kept = Vec::new(alloc);
    for layout in layouts {
        if is_among(place.moves(layout.counts()).as_slice(), mv) {
            kept.push(*layout)?;
        }
    }
    Ok(kept)
}

/// How many moves the class game has: a lead from either hand and a follow with each class, and showing out.
const MOST_KINDS: usize = 3 * MOST_CLASSES + 1;

/// All moves of the class game, in their order.
fn every_move() -> ArrayVec<ClassMove, MOST_KINDS>
    ensures { result.items ≡ every_move }
{
    let mut moves = ArrayVec::new();
    for north in 0..MOST_CLASSES as u8 {
        moves.push(ClassMove::Lead {
            seat: Seat::N,
            class: north,
        });
    }
    for south in 0..MOST_CLASSES as u8 {
        moves.push(ClassMove::Lead {
            seat: Seat::S,
            class: south,
        });
    }
    for follow in 0..MOST_CLASSES as u8 {
        moves.push(ClassMove::Follow { class: follow });
    }
    moves.push(ClassMove::ShowOut);
    moves
}

/// What each of some class layouts has at a place.
fn offers_at(
    alloc: Global,
    place: &ClassPlace,
    layouts: &[&ClassLayout],
) -> Result<Vec<ArrayVec<ClassMove, MOST_CLASSES>>, Memory>
    ensures { IfOk result (λ offers. map (λ offer. offer.items) offers.items
        ≡ map (λ layout. class_moves place.now layout.now) layouts.now) }
{
    let mut offers = Vec::with_capacity(alloc, layouts.len())?;
    for layout in layouts {
        offers.push(place.moves(layout.counts()))?;
    }
    Ok(offers)
}

/// Whether a move is among any of some offers.
fn is_offered(offers: &[ArrayVec<ClassMove, MOST_CLASSES>], mv: ClassMove) -> bool
    ensures { result ≡ list_any (λ offer. is_among offer.items mv) offers.now }
{
    offers.iter().any(|offer| is_among(offer.as_slice(), mv))
}
