//! What a class history hands on to those that go on from it.
ghost use Rattle.std.specs.Prelude.{◌≡◌, ◌<◌, ◌^◌, Contains, IfOk, length, map};
ghost use Rattle.suit_program.specs.Walks.Writing.{accounts_after, answer_seen, answered_by, mass_after, place_in};
ghost use Rattle.suit_program.specs.declared.walks.ledger.Account.{Account};

use crate::walks::ledger::Account;
use crate::walks::reach::MOST_NEXT;
use arrayvec::ArrayVec;
use std::alloc::{AllocError, Global};
use suit_classes::{ClassMove, is_among};

/// The moves of the defence in a class layout, and the account of the first of them. The others have the rows after it.
#[derive(Debug, Drop)]
pub(crate) struct LayoutMoves {
    pub(crate) account: Account,
    pub(crate) moves: ArrayVec<ClassMove, MOST_NEXT>,
}

/// What a class history hands on.
#[derive(Debug, Drop)]
pub(crate) enum Turn {
    /// The mass and the accounts as they came.
    Kept,
    /// Declarer's choice: its moves have columns of their own, from this one on.
    Passed { first: u32 },
    /// A turn of the defence, which plays in each class layout by itself.
    Answered { answers: Vec<LayoutMoves> },
}

impl Turn {
    /// The column of the mass after the move with an index.
    pub(crate) fn mass(&self, mass: u32, index: u32) -> u32
        requires { mass_after self.now mass index < 2 ^ 32 }
        ensures { result ≡ mass_after self.now mass index }
    {
        match self {
            Turn::Passed { first } => *first + index,
            Turn::Kept | Turn::Answered { .. } => mass,
        }
    }

    /// The accounts after a move.
    pub(crate) fn accounts(
        &self,
        alloc: Global,
        accounts: &[Account],
        mv: ClassMove,
    ) -> Result<Vec<Account>, AllocError>
        requires { (account : Account) → Contains (accounts_after self.now accounts.now mv) account
            → account.row < 2 ^ 32 }
        ensures { IfOk result (λ after. after.items ≡ accounts_after self.now accounts.now mv) }
    {
        match self {
            Turn::Answered { answers } => answered_by(alloc, answers, mv),
            Turn::Kept | Turn::Passed { .. } => Vec::from_slice(alloc, accounts),
        }
    }
}

// The accounts after a move of the defence.
fn answered_by(
    alloc: Global,
    answers: &[LayoutMoves],
    mv: ClassMove,
) -> Result<Vec<Account>, AllocError>
    requires { (account : Account) → Contains (answered_by (map answer_seen answers.now) mv) account
        → account.row < 2 ^ 32 }
    ensures { IfOk result (λ after. after.items ≡ answered_by (map answer_seen answers.now) mv) }
{
    let mut after = Vec::with_capacity(alloc, answers.len())?;
    for answer in answers {
        if is_among(&answer.moves, mv) {
            let place = place_in(&answer.moves, mv);
            after.push(Account {
                index: answer.account.index,
                row: answer.account.row + place,
                factor: answer.account.factor,
            })?;
        }
    }
    Ok(after)
}

// How many moves stand before one.
fn place_in(moves: &[ClassMove], mv: ClassMove) -> u32
    requires { length moves.now < 2 ^ 32 }
    ensures { result ≡ place_in moves.now mv }
{
    for index in 0..moves.len() {
        if moves[index].is_same(mv) {
            return index as u32;
        }
    }
    moves.len() as u32
}
