//! One round: the game of a support, and what a plan and a defence that are read from it show.
ghost use Rattle.std.specs.Prelude.{◌≡◌, ◌≤◌, IfErr, IfOk};
ghost use Rattle.suit_game.specs.Validity.{IsValid};
ghost use Rattle.suit_plans.specs.Properness.{IsProperDefence, IsProperPlan};
ghost use Rattle.suit_program.specs.Supports.Marks.{support_seen};
ghost use Rattle.suit_program.specs.Programs.{program_of, size_of};
ghost use Rattle.suit_linear.specs.Ends.{Tells};
ghost use Rattle.suit_linear.specs.Optima.{IsDualOptimum, IsPrimalOptimum};
ghost use Rattle.suit_linear.specs.Runs.{run_end};
ghost use Rattle.suit_tree.specs.Trees.{IsTreeOf};
ghost use Rattle.suit_solve.specs.Limits.{most_size};
ghost use Rattle.suit_solve.specs.Plays.{IsRoundEnd, ended_so};
ghost use Rattle.suit_solve.specs.Rounds.{compared, round_within};

use super::{SolveEnd, most_size};
use std::alloc::{AllocError, Global};
use suit_answer::{Answer, value_over};
use suit_game::Question;
use suit_plans::{DeclarerMoves, Defence, DefenceMoves, Plan};
use suit_program::{PlanEnd, Support, plans_of, size, sparse_program};
use suit_reply::{least, most};
use suit_simplex::{Optimum, SimplexEnd, sparse_optimum};
use suit_tree::Tree;

/// How a round ends in which a plan and a defence are read.
#[derive(Drop)]
pub(crate) enum Round {
    /// They meet, and this is their answer.
    Met(Answer),
    /// They do not: declarer's best reply to the defence, and the defence's to the plan.
    Apart(DeclarerMoves, DefenceMoves),
}

/// The round of a support, the run of whose program may make so many pivots.
pub(crate) fn play(
    alloc: Global,
    question: &Question,
    tree: &Tree,
    support: &Support,
    round: u32,
    pivots: u32,
) -> Result<Round, SolveEnd>
    requires valid { IsValid question.now }
    requires grown { IsTreeOf question.now tree.now }
    ensures ended { IfOk result (λ ended.
        round_within question.now pivots (support_seen question.now support.now) ≡ ended_so ended) }
    ensures end { IfErr result
        (IsRoundEnd (round_within question.now pivots (support_seen question.now support.now)) round) }
{
    if size(tree, support) > most_size(question) {
        return Err(SolveEnd::Support { round });
    }
    let optimum = match run(alloc, question, tree, support, pivots) {
        Ok(optimum) => optimum,
        Err(SimplexEnd::Pivots) => return Err(SolveEnd::Pivots { round }),
        Err(SimplexEnd::Wide { .. }) => return Err(SolveEnd::Wide { round }),
        Err(SimplexEnd::Memory) => return Err(SolveEnd::Memory),
    };
    match plans_of(alloc, tree, support, &optimum) {
        Ok((plan, defence)) => Ok(compare(alloc, question, tree, plan, defence)?),
        Err(PlanEnd::Wide) => Err(SolveEnd::Wide { round }),
        Err(PlanEnd::Memory) => Err(SolveEnd::Memory),
    }
}

/// The optimum of a support's program, by a run of so many pivots at most.
fn run(
    alloc: Global,
    question: &Question,
    tree: &Tree,
    support: &Support,
    pivots: u32,
) -> Result<Optimum, SimplexEnd>
    requires valid { IsValid question.now }
    requires grown { IsTreeOf question.now tree.now }
    requires few { size_of question.now (support_seen question.now support.now) ≤ most_size question.now }
    ensures run { Tells (program_of question.now (support_seen question.now support.now))
        (run_end (program_of question.now (support_seen question.now support.now)) pivots) result }
    ensures primal { IfOk result
        (IsPrimalOptimum (program_of question.now (support_seen question.now support.now))) }
    ensures dual { IfOk result (IsDualOptimum (program_of question.now (support_seen question.now support.now))) }
{
    let program = sparse_program(alloc, tree, support)?;
    sparse_optimum(alloc, &program, pivots)
}

/// How a round ends that has read a plan and a defence.
fn compare(
    alloc: Global,
    question: &Question,
    tree: &Tree,
    plan: Plan,
    defence: Defence,
) -> Result<Round, AllocError>
    requires valid { IsValid question.now }
    requires grown { IsTreeOf question.now tree.now }
    requires plan { IsProperPlan question.now plan }
    requires defence { IsProperDefence question.now defence }
    ensures { IfOk result (λ ended. compared question.now plan defence ≡ ended_so ended) }
{
    let (earned, theirs) = least(alloc, tree, &plan)?;
    let (allowed, own) = most(alloc, tree, &defence)?;
    let value = value_over(question, earned, plan.den);
    if value_over(question, allowed, defence.den) == value {
        return Ok(Round::Met(Answer {
            value,
            plan,
            defence,
        }));
    }
    Ok(Round::Apart(own, theirs))
}
