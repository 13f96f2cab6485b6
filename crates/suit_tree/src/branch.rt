//! The moves by which a position goes on, each with the class layouts in which it may be made.
ghost use Rattle.std.specs.Prelude.{◌≡◌, ◌<◌, true, [], All, IfOk, length, map};
ghost use Rattle.std.specs.List.{AllZip};
ghost use Rattle.suit_classes.specs.ClassPlaces.{class_moves, class_turn};
ghost use Rattle.suit_tree.specs.Growing.{Tells, branch_seen, is_theirs, kept_of, keeping, moves_from, their_moves};
ghost use Rattle.suit_tree.specs.Trees.{counts_at};

use super::offers::Offers;
use arrayvec::ArrayVec;
use bumpalo::Bump;
use std::alloc::{AllocError, Global};
use suit_classes::{ClassMove, ClassPlace, MOST_CLASSES};
use suit_layouts::ClassLayout;

/// A move, and the indices of the class layouts in which it may be made.
#[derive(Clone, Copy, Debug)]
pub(crate) struct Branch<'a> {
    pub(crate) mv: ClassMove,
    pub(crate) indices: &'a [u8],
}

/// The branches at a turn of declarer's: each of his moves is made in all class layouts, so they are looked up once.
pub(crate) fn own_branches<'a>(
    alloc: Global,
    position: &ClassPlace,
    indices: &'a [u8],
) -> Result<Vec<Branch<'a>>, AllocError>
    ensures { IfOk result (λ branches. map branch_seen branches.items
        ≡ map (λ move. (move, indices.now)) (class_moves position.now [])) }
{
    let moves = position.moves(&[]);
    let mut branches = Vec::with_capacity(alloc, moves.len())?;
    for mv in moves.as_slice() {
        branches.push(Branch { mv: *mv, indices })?;
    }
    Ok(branches)
}

/// The branches at a defender's turn: a move is made in the class layouts which offer it, if there are any.
pub(crate) fn their_branches<'a>(
    alloc: Global,
    arena: &'a Bump<Global>,
    layouts: &[(ClassLayout, u64)],
    position: &ClassPlace,
    indices: &'a [u8],
) -> Result<Vec<Branch<'a>>, AllocError>
    requires turn { is_theirs (class_turn position.now) ≡ true }
    requires indices { All (λ index. index < length layouts.now) indices.now }
    ensures { IfOk result (λ branches. map branch_seen branches.items
        ≡ map (λ move. (move, keeping layouts.now position.now indices.now move))
        (moves_from layouts.now position.now indices.now)) }
{
    let offers = offers_at(alloc, layouts, position, indices)?;
    let mut branches = Vec::new(alloc);
    for mv in their_moves().as_slice() {
        let kept = kept(alloc, arena, indices, &offers, *mv)?;
        if !kept.is_empty() {
            branches.push(Branch {
                mv: *mv,
                indices: kept,
            })?;
        }
    }
    Ok(branches)
}

// How many moves a defender may have: a follow with each class, and showing out.
const MOST_THEIRS: usize = MOST_CLASSES + 1;

// The moves that a defender may have, in their order.
fn their_moves() -> ArrayVec<ClassMove, MOST_THEIRS>
    ensures { result.items ≡ their_moves }
{
    let mut moves = ArrayVec::new();
    for class in 0..MOST_CLASSES as u8 {
        moves.push(ClassMove::Follow { class });
    }
    moves.push(ClassMove::ShowOut);
    moves
}

// What a defender may do at a position in each of some class layouts.
fn offers_at(
    alloc: Global,
    layouts: &[(ClassLayout, u64)],
    position: &ClassPlace,
    indices: &[u8],
) -> Result<Vec<Offers>, AllocError>
    requires { All (λ index. index < length layouts.now) indices.now }
    ensures { IfOk result (λ offers. AllZip
        (λ index told. Tells told (class_moves position.now (counts_at layouts.now index))) indices.now offers.items) }
{
    let mut offers = Vec::with_capacity(alloc, indices.len())?;
    for index in indices {
        offers.push(Offers::of(position.moves(counts_at(layouts, *index)).as_slice()))?;
    }
    Ok(offers)
}

// West's counts in the class layout at an index.
fn counts_at(layouts: &[(ClassLayout, u64)], index: u8) -> &[u8]
    requires { index < length layouts.now }
    ensures { result.now ≡ counts_at layouts.now index }
{
    layouts[index as usize].0.counts()
}

// Of some indices, each with offers, those whose offers have a move: where they all have it, these very indices.
fn kept<'a>(
    alloc: Global,
    arena: &'a Bump<Global>,
    indices: &'a [u8],
    offers: &[Offers],
    mv: ClassMove,
) -> Result<&'a [u8], AllocError>
    requires { length indices.now ≡ length offers.now }
    ensures { IfOk result (λ kept. kept.now ≡ kept_of indices.now offers.now mv) }
{
    let mut kept = Vec::new(alloc);
    for index in 0..indices.len() {
        if offers[index].has(mv) {
            kept.push(indices[index])?;
        }
    }
    if kept.len() == indices.len() {
        Ok(indices)
    } else {
        Ok(arena.try_alloc_slice_copy(&kept)?)
    }
}
