//! A plan or a defence that stands alone in a text: its lines, and the line that ends the text.
ghost use Rattle.std.specs.Prelude.{◌≡◌, ◌≤◌, ◌⊎◌, length, IfOk, IfErr, Ok, Err};
ghost use Rattle.suit_classes.specs.declared.classes.TheConstants.{MOST_DEFENCE_CLASSES};
ghost use Rattle.suit_text.specs.Strict.{pieces_of};
ghost use Rattle.suit_answer.specs.Alone.{plan_alone_due, defence_alone_due, plan_read, defence_read};
ghost use Rattle.suit_answer.specs.Alone.{plan_text_of, defence_text_of};
ghost use Rattle.suit_answer.specs.Results.{Gives};
ghost use Rattle.suit_answer.specs.Writable.{IsWritablePlanFor, IsWritableDefenceFor};
ghost use Rattle.suit_answer.specs.declared.faults.AnswerFault.TheVariants.{Memory};

use crate::Memory;
use crate::faults::{AnswerFault, ReadEnd};
use crate::letters::ClassLetters;
use crate::parts::{defence_due, plan_due};
use crate::reading::end_due;
use crate::writing::{write_defence, write_plan};
use std::alloc::Global;
use suit_classes::{Classes, MOST_DEFENCE_CLASSES};
use suit_game::Question;
use suit_plans::{Defence, Plan};
use suit_text::MOST_TEXT;

/// Reads a plan for a question from a text of its own: `plan` with its denominator and its number of rows, the rows,
/// and `end`, in the form that they have in an answer text. Lines are counted from 1, and faults told as there.
///
/// # Errors
///
/// The first fault, or want of memory.
pub fn read_plan(alloc: Global, question: &Question, bytes: &[u8]) -> Result<Plan, AnswerFault>
    requires { length bytes.now ≤ MOST_TEXT }
    ensures value { IfOk result (λ plan. plan_read question.now bytes.now ≡ Ok plan) }
    ensures written { IfOk result (λ plan. bytes.now ≡ plan_text_of question.now plan) }
    ensures writable { IfOk result (IsWritablePlanFor question.now) }
    ensures fault { IfErr result (λ fault. (plan_read question.now bytes.now ≡ Err fault) ⊎ (fault ≡ Memory)) }
{
    let letters = ClassLetters::of(question);
    match plan_alone_due(alloc, &letters, bytes) {
        Ok(plan) => Ok(plan),
        Err(ReadEnd::Memory) => Err(AnswerFault::Memory),
        Err(ReadEnd::Fault(fault)) => Err(fault),
    }
}

/// Reads a defence against a question's declarer from a text of its own: `defence` with its denominator and its number
/// of rows, the rows, and `end`, in the form that they have in an answer text. Lines are counted from 1, and faults
/// told as there.
///
/// # Errors
///
/// The first fault, or want of memory.
pub fn read_defence(
    alloc: Global,
    question: &Question,
    bytes: &[u8],
) -> Result<Defence, AnswerFault>
    requires { length bytes.now ≤ MOST_TEXT }
    ensures value { IfOk result (λ defence. defence_read question.now bytes.now ≡ Ok defence) }
    ensures written { IfOk result (λ defence. bytes.now ≡ defence_text_of question.now defence) }
    ensures writable { IfOk result (IsWritableDefenceFor question.now) }
    ensures fault { IfErr result (λ fault. (defence_read question.now bytes.now ≡ Err fault) ⊎ (fault ≡ Memory)) }
{
    let letters = ClassLetters::of(question);
    let classes = Classes::of(question).defence();
    match defence_alone_due(alloc, &letters, classes.len(), bytes) {
        Ok(defence) => Ok(defence),
        Err(ReadEnd::Memory) => Err(AnswerFault::Memory),
        Err(ReadEnd::Fault(fault)) => Err(fault),
    }
}

/// Writes a plan for a question as a text of its own, which is read again as the plan.
///
/// # Errors
///
/// Want of memory.
pub fn plan_text(alloc: Global, question: &Question, plan: &Plan) -> Result<Vec<u8>, Memory>
    requires { IsWritablePlanFor question.now plan.now }
    ensures text { IfOk result (λ text. text.items ≡ plan_text_of question.now plan.now) }
    ensures reads_back { IfOk result (λ text. plan_read question.now text.items ≡ Ok plan.now) }
{
    let mut text = Vec::new(alloc);
    write_plan(&mut text, &ClassLetters::of(question), plan)?;
    text.extend_from_slice(b"end\n")?;
    Ok(text)
}

/// Writes a defence against a question's declarer as a text of its own, which is read again as the defence.
///
/// # Errors
///
/// Want of memory.
pub fn defence_text(
    alloc: Global,
    question: &Question,
    defence: &Defence,
) -> Result<Vec<u8>, Memory>
    requires { IsWritableDefenceFor question.now defence.now }
    ensures text { IfOk result (λ text. text.items ≡ defence_text_of question.now defence.now) }
    ensures reads_back { IfOk result (λ text. defence_read question.now text.items ≡ Ok defence.now) }
{
    let mut text = Vec::new(alloc);
    write_defence(&mut text, &ClassLetters::of(question), defence)?;
    text.extend_from_slice(b"end\n")?;
    Ok(text)
}

/// The plan of a text, where the letters of the classes are given.
#[tactic(auto, unfolding(crate::specs::Alone::alone_due))]
fn plan_alone_due(alloc: Global, letters: &ClassLetters, text: &[u8]) -> Result<Plan, ReadEnd>
    requires { length text.now ≤ MOST_TEXT }
    ensures { Gives (λ plan. plan) result (plan_alone_due letters.now (pieces_of text.now)) }
{
    let plan = plan_due(alloc, letters, 1, text)?;
    end_due(plan.line, plan.rest)?;
    Ok(plan.part)
}

/// The defence of a text, where it is given, too, how many classes the defenders have.
#[tactic(auto, unfolding(crate::specs::Alone::alone_due))]
fn defence_alone_due(
    alloc: Global,
    letters: &ClassLetters,
    classes: usize,
    text: &[u8],
) -> Result<Defence, ReadEnd>
    requires few { classes ≤ MOST_DEFENCE_CLASSES }
    requires short { length text.now ≤ MOST_TEXT }
    ensures { Gives (λ defence. defence) result (defence_alone_due letters.now classes (pieces_of text.now)) }
{
    let defence = defence_due(alloc, letters, classes, 1, text)?;
    end_due(defence.line, defence.rest)?;
    Ok(defence.part)
}
