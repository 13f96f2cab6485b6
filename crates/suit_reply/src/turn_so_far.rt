//! How a turn gathers what is found below its moves.
ghost use Rattle.std.specs.Prelude.{◌≡◌, ◌+ℤ◌, ◌<◌, ◌^◌, IfOk};
ghost use Rattle.suit_num.specs.Narrow.{IsNarrow};
ghost use Rattle.suit_reply.specs.declared.turn_rule.TurnRule.TheVariants.{Sum};
ghost use Rattle.suit_reply.specs.Turns.{finished, gathered_none, joined, taken};

use super::chosen_move::ChosenMove;
use super::node_reply::NodeReply;
use super::turn_rule::TurnRule;
use std::alloc::{AllocError, Global};
use std::marker::Model;
use suit_classes::{ClassMove, History};

/// What a turn has gathered so far: what is found, by which move last, and of how many moves.
#[derive(Debug, Drop)]
pub(crate) struct TurnSoFar {
    found: NodeReply,
    by: ClassMove,
    many: usize,
}

impl Model for TurnSoFar {
    ghost use Rattle.suit_reply.specs.Turns.{TurnView};

    ghost Value = { TurnView };

    ghost view = { λ so_far. record { found = so_far.found; by = so_far.by; many = so_far.many } };
}

impl TurnSoFar {
    /// Nothing, of no moves.
    pub(crate) fn none(alloc: Global) -> TurnSoFar
        ensures { result ≡ gathered_none }
    {
        TurnSoFar {
            found: NodeReply::of(alloc, 0),
            by: ClassMove::ShowOut,
            many: 0,
        }
    }

    /// One move more, with what is found below it.
    pub(crate) fn join(
        self,
        rule: TurnRule,
        mv: ClassMove,
        next: NodeReply,
    ) -> Result<TurnSoFar, AllocError>
        requires many { self.many < 2 ^ 63 }
        requires sum { rule ≡ Sum → IsNarrow (self.found.worth +ℤ next.worth) }
        ensures { IfOk result (λ so_far. so_far ≡ joined rule self mv next) }
    {
        match rule {
            TurnRule::Sum => self.add(mv, next),
            TurnRule::Least => {
                let better = next.worth < self.found.worth;
                Ok(self.take(better, mv, next))
            }
            TurnRule::Most => {
                let better = self.found.worth < next.worth;
                Ok(self.take(better, mv, next))
            }
        }
    }

    // Adds what is found below a move.
    fn add(self, mv: ClassMove, next: NodeReply) -> Result<TurnSoFar, AllocError>
        requires many { self.many < 2 ^ 63 }
        requires sum { IsNarrow (self.found.worth +ℤ next.worth) }
        ensures { IfOk result (λ so_far. so_far ≡ joined Sum self mv next) }
    {
        let worth = self.found.worth + next.worth;
        let mut choices = self.found.choices;
        let mut more = next.choices;
        choices.append(&mut more)?;
        Ok(TurnSoFar {
            found: NodeReply { worth, choices },
            by: mv,
            many: self.many + 1,
        })
    }

    // Takes what is found below a move, if it is the first or the better one.
    fn take(self, better: bool, mv: ClassMove, next: NodeReply) -> TurnSoFar
        requires { self.many < 2 ^ 63 }
        ensures { result ≡ taken better self mv next }
    {
        let many = self.many + 1;
        if self.many == 0 || better {
            TurnSoFar {
                found: next,
                by: mv,
                many,
            }
        } else {
            TurnSoFar { many, ..self }
        }
    }

    /// What is found at a turn: a choice stands before those that follow.
    pub(crate) fn finish(
        self,
        rule: TurnRule,
        alloc: Global,
        history: &[ClassMove],
    ) -> Result<NodeReply, AllocError>
        ensures { IfOk result (λ found. found ≡ finished rule history.now self) }
    {
        let mut found = self.found;
        if rule != TurnRule::Sum && self.many > 1 {
            let choice = ChosenMove {
                history: History::of(Vec::from_slice(alloc, history)?),
                mv: self.by,
            };
            found.choices.insert(0, choice)?;
        }
        Ok(found)
    }
}
