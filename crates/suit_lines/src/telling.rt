//! The walk through the choices that a plan comes to, and the text that is written on it.
ghost use Rattle.std.specs.Prelude.{◌≡◌, ◌&&◌, nat_lt, ◌-◌, ◌++◌, ◌∷◌, [], ◌≤◌, ℤ, length, filter, map, All, IfOk};
ghost use Rattle.std.specs.Prelude.{OnOk};
ghost use Rattle.suit_game.specs.declared.question.Question.{Question};
ghost use Rattle.suit_game.specs.Validity.{IsValid};
ghost use Rattle.suit_classes.specs.Classes.{hands_of};
ghost use Rattle.suit_classes.specs.ClassPlaces.{class_after, class_turn};
ghost use Rattle.suit_answer.specs.Letters.{class_letters};
ghost use Rattle.suit_answer.specs.Writable.{IsWritableMove};
ghost use Rattle.suit_plans.specs.BestReplies.{public_moves};
ghost use Rattle.suit_plans.specs.Masses.{declarer, is_declarers, let_through, plan_mass};
ghost use Rattle.suit_plans.specs.Orders.{InOrder, plan_row_before};
ghost use Rattle.suit_plans.specs.Properness.{IsProperPlan};
ghost use Rattle.suit_lines.specs.Lines.{lines_of};
ghost use Rattle.suit_lines.specs.Told.{is_live, live_shares, share_of};
ghost use Rattle.suit_lines.specs.Values.{IsTellable};
ghost use Rattle.suit_lines.specs.Walks.{StandsAt, allowing_counts, lines_from, own_line};

use super::Memory;
use super::moves::{having, moves_for};
use super::sentences::{write_choice, write_opening};
use super::value::write_value;
use std::alloc::Global;
use suit_answer::{Answer, ClassLetters};
use suit_classes::{ClassMove, ClassPlace, ClassTurn, Classes};
use suit_game::Question;
use suit_layouts::{ClassLayout, class_layouts};
use suit_plans::{Plan, Row, is_declarers, is_first, plan_shares_at, share};

/// An answer told in sentences: a line with the value, and then one for each class history that some mass of the plan
/// comes to and where declarer, who is on turn, has two moves or more. It says what was played, and what the plan does:
/// where it splits the mass among moves, how much of it each gets. The lines stand in the order of the class
/// histories, and a letter stands for any card of its class.
///
/// Class histories to which no mass of the plan comes are not looked at, and no tree is grown.
///
/// # Errors
///
/// Want of memory.
pub fn lines_text(alloc: Global, question: &Question, answer: &Answer) -> Result<Vec<u8>, Memory>
    requires valid { IsValid question.now }
    requires proper { IsProperPlan question.now answer.now.plan }
    requires value { IsTellable answer.now.value }
    ensures { IfOk result (λ text. text.items ≡ lines_of question.now answer.now) }
{
    let mut text = Vec::new(alloc);
    write_value(&mut text, question.goal, answer.value)?;
    let sizes = Classes::of(question).sizes();
    let layouts = class_layouts(alloc, question, sizes.as_slice())?;
    let telling = Telling {
        alloc,
        question,
        plan: &answer.plan,
        letters: &ClassLetters::of(question),
    };
    telling.write_from(
        &mut text,
        &mut Vec::new(alloc),
        &ClassPlace::start(question, &Classes::of(question)),
        answer.plan.den,
        &without_weights(alloc, &layouts)?,
    )?;
    Ok(text)
}

// Class layouts without their weights.
fn without_weights(
    alloc: Global,
    layouts: &[(ClassLayout, u64)],
) -> Result<Vec<&ClassLayout>, Memory>
    ensures { IfOk result (λ list. map (λ layout. layout.now) list.items
        ≡ map (λ layout. layout.0) layouts.now) }
{
    let mut list = Vec::with_capacity(alloc, layouts.len())?;
    for layout in layouts {
        list.push(&layout.0)?;
    }
    Ok(list)
}

// A plan that is told of a question.
#[derive(Drop)]
struct Telling<'a> {
    alloc: Global,
    question: &'a Question,
    plan: &'a Plan,
    letters: &'a ClassLetters,
}

impl Telling<'_> {
    // Writes the lines of a class history and of those that go on from it, where the place after it, the mass that
    // comes to it and the class layouts that allow it are given. The history is given back as it was.
    fn write_from(
        &self,
        text: &mut Vec<u8>,
        history: &mut Vec<ClassMove>,
        place: &ClassPlace,
        mass: i128,
        layouts: &[&ClassLayout],
    ) -> Result<(), Memory>
        requires letters { self.now.letters.now ≡ class_letters (hands_of self.now.question.now) }
        requires stands { StandsAt self.now.question.now self.now.plan.now history.old.items place.now mass
            (map (λ layout. layout.now) layouts.now) }
        ensures lines { OnOk result (text.new.items
            ≡ text.old.items ++ lines_from self.now.question.now self.now.plan.now history.old.items) }
        ensures kept { OnOk result (history.new.items ≡ history.old.items) }
    {
        let moves = moves_for(self.alloc, place, layouts)?;
        let shares = self.live_shares(history, place, mass, &moves)?;
        self.write_line(text, history, place, mass, &moves, &shares)?;
        for (mv, share) in &shares {
            let next = place.step(*mv);
            let kept = having(self.alloc, place, layouts, *mv)?;
            history.push(*mv)?;
            self.write_from(text, history, &next, *share, &kept)?;
            history.pop();
        }
        Ok(())
    }

    // Of some moves at a class history those by which some mass is let through, each with how much.
    fn live_shares(
        &self,
        history: &[ClassMove],
        place: &ClassPlace,
        mass: i128,
        moves: &[ClassMove],
    ) -> Result<Vec<(ClassMove, i128)>, Memory>
        requires order { InOrder plan_row_before self.now.plan.now.rows }
        requires place { place.now ≡ class_after self.now.question.now history.now }
        requires mass { mass ≡ plan_mass self.now.question.now self.now.plan.now history.now }
        ensures { IfOk result (λ shares. shares.items ≡ filter is_live
            (map (share_of self.now.question.now self.now.plan.now history.now) moves.now)) }
    {
        let mut shares = Vec::new(self.alloc);
        for mv in moves {
            let share = let_through(self.plan.rows.items(), history, place, mass, *mv);
            if share > 0 {
                shares.push((*mv, share))?;
            }
        }
        Ok(shares)
    }

    // Writes the line of a class history, if declarer has a choice there.
    fn write_line(
        &self,
        text: &mut Vec<u8>,
        history: &[ClassMove],
        place: &ClassPlace,
        mass: i128,
        moves: &[ClassMove],
        shares: &[(ClassMove, i128)],
    ) -> Result<(), Memory>
        requires letters { self.now.letters.now ≡ class_letters (hands_of self.now.question.now) }
        requires stands { StandsAt self.now.question.now self.now.plan.now history.now place.now mass
            (allowing_counts self.now.question.now history.now) }
        requires moves { moves.now ≡ public_moves self.now.question.now history.now }
        requires shares { shares.now ≡ live_shares self.now.question.now self.now.plan.now history.now }
        ensures { OnOk result (text.new.items
            ≡ text.old.items ++ own_line self.now.question.now self.now.plan.now history.now) }
    {
        if !is_choice(place.turn(), moves.len()) {
            return Ok(());
        }
        write_opening(text, self.letters, self.question, history)?;
        write_choice(text, self.letters, place.turn(), mass, shares)?;
        text.extend_from_slice(b".\n")?;
        Ok(())
    }
}

// Whether a turn is declarer's and has a choice among so many moves.
fn is_choice(turn: ClassTurn, moves: usize) -> bool
    ensures { result ≡ (is_declarers turn && nat_lt 1 moves) }
{
    is_declarers(turn) && moves > 1
}

// The mass that the rows of a plan let through by a move from a class history.
fn let_through(
    rows: &[Row],
    history: &[ClassMove],
    place: &ClassPlace,
    mass: i128,
    mv: ClassMove,
) -> i128
    requires { InOrder plan_row_before rows.now }
    ensures { (question : Question) (den : ℤ) → place.now ≡ class_after question history.now
        → result ≡ let_through question (declarer den rows.now) history.now mass mv }
{
    if !is_declarers(place.turn()) {
        return mass;
    }
    share(
        plan_shares_at(rows, history),
        is_first(&place.moves(&[]), mv),
        mass,
        mv,
    )
}
