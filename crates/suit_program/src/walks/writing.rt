//! The walk that writes the program of a support down.
ghost use Rattle.std.specs.Prelude.{◌≡◌, ◌∷◌, [], IfOk, OnOk, true};
ghost use Rattle.suit_plans.specs.Masses.{is_defences};
ghost use Rattle.suit_tree.specs.Nodes.{turn_at};
ghost use Rattle.suit_program.specs.Walks.SupportSizes.{IsReachBefore};
ghost use Rattle.suit_program.specs.Walks.Writing.{AreAnswered, IsAnswerAsked, IsAsked, IsOpened, IsWritten};

use crate::walks::ledger::{Account, Ledger};
use crate::walks::reach::Reach;
use crate::walks::turn::{LayoutMoves, Turn};
use std::alloc::{AllocError, Global};
use suit_classes::ClassTurn;

/// Writes the columns and rows at a class history and at all that are reached from it on, in order, where at most so
/// many moves come. The column of its mass is given, and the accounts of the class layouts in which it is reached.
pub(crate) fn write(
    alloc: Global,
    ledger: &mut Ledger,
    reach: &Reach,
    more: u8,
    mass: u32,
    accounts: &[Account],
) -> Result<(), AllocError>
    requires asked { IsAsked ledger.old reach.now accounts.now }
    requires left { IsReachBefore more reach.now }
    ensures { OnOk result ((case : IsAsked ledger.old reach.now accounts.now)
        → IsWritten case.question case.support case.history mass accounts.now ledger.old ledger.new) }
{
    let turn = open(alloc, ledger, reach, mass, accounts)?;
    let mut passed = 0;
    for child in reach.node().children() {
        let Some(next) = reach.child(child) else {
            continue;
        };
        let after = turn.accounts(alloc, accounts, child.mv())?;
        write(
            alloc,
            ledger,
            &next,
            more - 1,
            turn.mass(mass, passed),
            &after,
        )?;
        passed += 1;
    }
    Ok(())
}

// Writes the columns and rows at a class history.
fn open<'a>(
    alloc: Global,
    ledger: &mut Ledger,
    reach: &Reach<'a>,
    mass: u32,
    accounts: &[Account],
) -> Result<Turn, AllocError>
    requires { IsAsked ledger.old reach.now accounts.now }
    ensures { IfOk result (λ turn. (case : IsAsked ledger.old reach.now accounts.now)
        → IsOpened case.question case.support case.history mass accounts.now ledger.old ledger.new turn) }
{
    match reach.node().turn() {
        ClassTurn::Decided => {
            ledger.pay(reach.node().payoff(), mass, accounts)?;
            Ok(Turn::Kept)
        }
        ClassTurn::Lead | ClassTurn::Declarer(_) => {
            if !reach.declarer_chooses() {
                return Ok(Turn::Kept);
            }
            let first = ledger.pass(mass, reach.own_moves().len() as u32)?;
            Ok(Turn::Passed { first })
        }
        ClassTurn::Defence(_) => {
            let answers = answered(alloc, ledger, reach, accounts)?;
            Ok(Turn::Answered { answers })
        }
    }
}

// Writes those at a turn of the defence.
fn answered<'a>(
    alloc: Global,
    ledger: &mut Ledger,
    reach: &Reach<'a>,
    accounts: &[Account],
) -> Result<Vec<LayoutMoves>, AllocError>
    requires asked { IsAsked ledger.old reach.now accounts.now }
    requires theirs { is_defences (turn_at reach.now.node) ≡ true }
    ensures { IfOk result (λ answers. (case : IsAsked ledger.old reach.now accounts.now)
        → AreAnswered case.question case.support case.history accounts.now ledger.old ledger.new answers.items) }
{
    let mut answers = Vec::with_capacity(alloc, accounts.len())?;
    for place in 0..accounts.len() {
        let next = answer(ledger, reach, place, accounts[place])?;
        answers.push(next)?;
    }
    Ok(answers)
}

// Writes those of the class layout at a place in the reach's list.
fn answer<'a>(
    ledger: &mut Ledger,
    reach: &Reach<'a>,
    place: usize,
    account: Account,
) -> Result<LayoutMoves, AllocError>
    requires { IsAnswerAsked ledger.old reach.now place account }
    ensures { IfOk result (λ answer. (case : IsAnswerAsked ledger.old reach.now place account)
        → AreAnswered case.question case.support case.history (account ∷ []) ledger.old ledger.new (answer ∷ [])) }
{
    let layout = &reach.layouts()[place];
    let moves = reach.answers(layout);
    if !reach.chooses(layout.index) {
        return Ok(LayoutMoves { account, moves });
    }
    let account = ledger.hold(account, moves.len() as u32)?;
    Ok(LayoutMoves { account, moves })
}
