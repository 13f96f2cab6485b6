//! What holds of all answers, plans and defences, and of their texts. Each function does nothing: its contract is the
//! law.
ghost use Rattle.suit_answer.specs.AnswerLaws.{ReadTextsAreWritten, WrittenTextsAreRead};
ghost use Rattle.suit_answer.specs.AnswerLaws.{ReadPlansAreWritten, WrittenPlansAreRead};
ghost use Rattle.suit_answer.specs.AnswerLaws.{ReadDefencesAreWritten, WrittenDefencesAreRead};

/// A text that is read is the one that its answer is written as.
pub fn read_texts_are_written()
    ensures { ReadTextsAreWritten }
{}

/// What is written of an answer is read as it.
pub fn written_texts_are_read()
    ensures { WrittenTextsAreRead }
{}

/// A text that is read as a plan alone is the one that the plan is written as.
pub fn read_plans_are_written()
    ensures { ReadPlansAreWritten }
{}

/// What is written of a plan alone is read as it.
pub fn written_plans_are_read()
    ensures { WrittenPlansAreRead }
{}

/// A text that is read as a defence alone is the one that the defence is written as.
pub fn read_defences_are_written()
    ensures { ReadDefencesAreWritten }
{}

/// What is written of a defence alone is read as it.
pub fn written_defences_are_read()
    ensures { WrittenDefencesAreRead }
{}
