//! The line that a refusal writes, which takes no memory.
ghost use Rattle.std.specs.Prelude.{◌≡◌, ◌+◌, ◌≤◌, length};
ghost use Rattle.suit_check.specs.Verdicts.{parts_of};
ghost use Rattle.suit_top.specs.Refusals.{answer_fault_number, answer_fault_place, answer_line};
ghost use Rattle.suit_top.specs.Refusals.{defence_line, numbered_line, fraction_line, least_line};
ghost use Rattle.suit_top.specs.Refusals.{malformed_line, misfit_line, most_line, nodes_line, plan_fault_number};
ghost use Rattle.suit_top.specs.Refusals.{pivots_line, plan_line, size_line, width_line};

use arrayvec::ArrayString;
use itoa::Buffer;
use suit_answer::AnswerFault;
use suit_num::Frac;
use suit_plans::{PlanFault, PlanKind};
use suit_question::QuestionFault;

/// A line of refusal. The longest tells two numbers of 39 digits.
pub type Refusal = ArrayString<97>;

/// The line that is written of a question text with a fault.
pub fn malformed(fault: QuestionFault) -> Refusal
    ensures { result.bytes ≡ malformed_line fault }
{
    line_of_fault("malformed ", fault.kind.number(), " at line ", fault.line)
}

/// The line that is written of an answer text with a fault.
pub fn wrong_answer(fault: AnswerFault) -> Refusal
    ensures { result.bytes ≡ answer_line fault }
{
    let (number, line) = numbers_of(fault);
    line_of_fault("not valid: answer ", number, " at line ", line)
}

/// The line that is written of an answer whose plan is not proper.
pub fn wrong_plan(fault: PlanFault) -> Refusal
    ensures { result.bytes ≡ plan_line fault }
{
    line_of_fault(
        "not valid: plan ",
        plan_number_of(fault.kind),
        " at row ",
        fault.row,
    )
}

/// The line that is written of an answer whose defence is not proper.
pub fn wrong_defence(fault: PlanFault) -> Refusal
    ensures { result.bytes ≡ defence_line fault }
{
    line_of_fault(
        "not valid: defence ",
        plan_number_of(fault.kind),
        " at row ",
        fault.row,
    )
}

/// The line that is written of an answer whose plan earns this fraction, which is not its value.
pub fn other_least(found: Frac) -> Refusal
    ensures { result.bytes ≡ least_line (parts_of found) }
{
    line_of_fraction("not valid: least ", found)
}

/// The line that is written of an answer whose defence lets declarer earn this fraction, which is not its value.
pub fn other_most(found: Frac) -> Refusal
    ensures { result.bytes ≡ most_line (parts_of found) }
{
    line_of_fraction("not valid: most ", found)
}

/// The line that is written where a tree has more nodes than this budget.
pub fn past_nodes(budget: u32) -> Refusal
    ensures { result.bytes ≡ nodes_line budget }
{
    let mut text = Refusal::new();
    text.push_str("nodes ");
    text.push_str(Buffer::new().format(budget));
    text.push_str("\n");
    text
}

/// The line that is written where the program of a round's support is too large.
pub fn past_size(round: u32) -> Refusal
    ensures { result.bytes ≡ size_line round }
{
    let mut text = Refusal::new();
    text.push_str("support");
    text.push_str(" at round ");
    text.push_str(Buffer::new().format(round));
    text.push_str("\n");
    text
}

/// The line that is written where the run of a round needs more pivots than this budget.
pub fn past_pivots(budget: u32, round: u32) -> Refusal
    ensures { result.bytes ≡ pivots_line budget round }
{
    let mut text = Refusal::new();
    text.push_str("pivots ");
    text.push_str(Buffer::new().format(budget));
    text.push_str(" at round ");
    text.push_str(Buffer::new().format(round));
    text.push_str("\n");
    text
}

/// The line that is written where a number of a round is too wide.
pub fn past_width(round: u32) -> Refusal
    ensures { result.bytes ≡ width_line round }
{
    let mut text = Refusal::new();
    text.push_str("wide");
    text.push_str(" at round ");
    text.push_str(Buffer::new().format(round));
    text.push_str("\n");
    text
}

/// The line that is written where a record of a table has more or fewer than thirteen fields.
pub fn misfit(at: u32) -> Refusal
    ensures { result.bytes ≡ misfit_line at }
{
    let mut text = Refusal::new();
    text.push_str("csv at record ");
    text.push_str(Buffer::new().format(at));
    text.push_str("\n");
    text
}

// The line of a numbered fault: what has it, its number, and where it stands.
fn line_of_fault(what: &str, number: u8, place: &str, at: u32) -> Refusal
    requires { length what.now + length place.now ≤ 40 }
    ensures { result.bytes ≡ numbered_line what.now number place.now at }
{
    let mut text = Refusal::new();
    text.push_str(what);
    text.push_str(Buffer::new().format(number));
    text.push_str(place);
    text.push_str(Buffer::new().format(at));
    text.push_str("\n");
    text
}

// The line of a fraction that is not negative.
fn line_of_fraction(what: &str, found: Frac) -> Refusal
    requires { length what.now ≤ 17 }
    ensures { result.bytes ≡ fraction_line what.now (parts_of found) }
{
    let mut text = Refusal::new();
    text.push_str(what);
    text.push_str(Buffer::new().format(found.num.unsigned_abs()));
    text.push_str("/");
    text.push_str(Buffer::new().format(found.den.unsigned_abs()));
    text.push_str("\n");
    text
}

// The number of a fault of an answer text, and its line.
fn numbers_of(fault: AnswerFault) -> (u8, u32)
    ensures number { result.0 ≡ answer_fault_number fault }
    ensures line { result.1 ≡ answer_fault_place fault }
{
    match fault {
        AnswerFault::Version { line } => (1, line),
        AnswerFault::Line { line } => (2, line),
        AnswerFault::Number { line } => (3, line),
        AnswerFault::Move { line } => (4, line),
        AnswerFault::Count { line } => (5, line),
        AnswerFault::Truncated { line } => (6, line),
        AnswerFault::Tail { line } => (7, line),
        AnswerFault::Memory => (0, 0),
    }
}

// The number of a fault of a plan or a defence.
fn plan_number_of(kind: PlanKind) -> u8
    ensures { result ≡ plan_fault_number kind }
{
    match kind {
        PlanKind::Den => 1,
        PlanKind::History => 2,
        PlanKind::Order => 3,
        PlanKind::Illegal => 4,
        PlanKind::Negative => 5,
        PlanKind::Sum => 6,
        PlanKind::Layout => 7,
    }
}
