//! A question on its way through the rounds.
ghost use Rattle.std.specs.Prelude.{◌≡◌, ◌-◌, ◌^◌, IfErr, IfOk, Ok, min};
ghost use Rattle.suit_answer.specs.Writable.{IsWritable};
ghost use Rattle.suit_game.specs.Validity.{IsValid};
ghost use Rattle.suit_program.specs.Programs.{size_of};
ghost use Rattle.suit_solve.specs.Fates.{IsEnd, fate};
ghost use Rattle.suit_solve.specs.Solving.{IsUnbegun, IsUnderWay, Steps, first_view, solving_seen};

use super::SolveEnd;
use super::round::{Round, play};
use bumpalo::Bump;
use std::alloc::Global;
use suit_answer::Answer;
use suit_game::Question;
use suit_program::{Support, size};
use suit_tree::{Tree, grow};

/// A question on its way through the rounds. Contracts see the question, the support of the round that comes next, and
/// the number of that round (`solving_seen`).
#[derive(Drop)]
pub struct Solving<'a> {
    alloc: Global,
    question: &'a Question,
    tree: Tree<'a>,
    support: Support,
    round: u32,
}

impl<'a> Solving<'a> {
    /// A question before the first round: its tree is grown, and its support is that of first moves.
    ///
    /// # Errors
    ///
    /// `Nodes` exactly where the tree has more pairs than the question's budget. `Memory` may come in place of any
    /// answer.
    pub fn start(
        alloc: Global,
        arena: &'a Bump<Global>,
        question: &'a Question,
    ) -> Result<Solving<'a>, SolveEnd>
        requires { IsValid question.now }
        ensures first { IfOk result (λ solving. solving_seen solving ≡ first_view question.now) }
        ensures way { IfOk result IsUnderWay }
        ensures end { IfErr result (IsUnbegun question.now) }
    {
        let tree = grow(alloc, arena, question)?;
        let support = Support::first(alloc);
        Ok(Solving {
            alloc,
            question,
            tree,
            support,
            round: 0,
        })
    }

    /// How many rows and columns the program of the round has. It stays at the greatest number that it can tell.
    pub fn size(&self) -> u32
        requires { IsUnderWay self.now }
        ensures { result ≡ min (size_of self.now.question.now (solving_seen self.now).support) (2 ^ 32 - 1) }
    {
        size(&self.tree, &self.support)
    }

    /// The next round, the run of whose program may make so many pivots: the answer where its plan and its defence
    /// meet. Where they do not, the moves of both best replies are added to the support, and another round comes.
    ///
    /// # Errors
    ///
    /// `Support`, `Pivots` and `Wide` as `solve` tells them, of this round. `Memory` may come in place of any answer.
    /// All of them leave the support and the round.
    pub fn step(&mut self, pivots: u32) -> Result<Option<Answer>, SolveEnd>
        requires { IsUnderWay self.old }
        ensures step { Steps (solving_seen self.old) pivots result (solving_seen self.new) }
        ensures way { IsUnderWay self.new }
    {
        match play(
            self.alloc,
            self.question,
            &self.tree,
            &self.support,
            self.round,
            pivots,
        )? {
            Round::Met(answer) => Ok(Some(answer)),
            Round::Apart(own, theirs) => {
                self.support.add(&self.tree, &own, &theirs)?;
                self.round += 1;
                Ok(None)
            }
        }
    }
}

/// What becomes of a question: an answer, whose value its plan and its defence show, or why there is none.
///
/// The tree of the question is grown first. Then there are rounds, from the support of first moves on. In each the
/// program of the support is solved, and a plan and a defence are read from its optimum. Where what the plan earns at
/// least is what the defence lets declarer earn at most, that is the value; else the moves of both best replies are
/// added to the support. This is the double oracle of H. B. McMahan, G. J. Gordon and A. Blum (2003), here over the
/// sequence form of D. Koller, N. Megiddo and B. von Stengel (1994).
///
/// # Errors
///
/// `Nodes` exactly where the tree has more pairs than the question's budget. In the first round that has no answer and
/// adds no move, `Support` exactly where the program would be too large, `Pivots` where its run needs more pivots than
/// the question's budget, and `Wide` where a number of the run or a denominator of the reading is too wide. `Memory`
/// may come in place of any answer.
pub fn solve(alloc: Global, question: &Question) -> Result<Answer, SolveEnd>
    requires { IsValid question.now }
    ensures answer { IfOk result (λ answer. fate question.now ≡ Ok answer) }
    ensures writable { IfOk result (IsWritable question.now) }
    ensures end { IfErr result (IsEnd question.now) }
{
    let arena = Bump::new(alloc);
    let mut solving = Solving::start(alloc, &arena, question)?;
    loop {
        match solving.step(question.pivots)? {
            Some(answer) => return Ok(answer),
            None => {}
        }
    }
}
