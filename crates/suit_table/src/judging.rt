//! Judging the questions of records: each in a task of its own, in batches of at most four.
ghost use Rattle.std.specs.Prelude.{◌≡◌, ℕ, ◌<◌, All, IfOk, length, slice_index_or};
ghost use Rattle.suit_game.specs.Validity.{IsValid};
ghost use Rattle.suit_game.specs.declared.question.Question.{Question};
ghost use Rattle.suit_table.specs.Judging.{IsFound, IsTold};
ghost use Rattle.suit_table.specs.declared.outcomes.Outcome.{Outcome};

use crate::Memory;
use crate::outcomes::Outcome;
use std::alloc::Global;
use std::thread;
use std::thread::Threads;
use suit_game::{Gate, Question};
use suit_question::{QuestionFault, QuestionKind};

/// The most tasks that stand at once.
pub const BATCH: usize = 4;

/// Judges questions.
pub trait Judge {
    /// Which outcomes fit a question.
    ghost fits: { Self → Question → Outcome → Type 0 };

    /// An outcome that fits the question.
    fn judge(&self, alloc: Global, question: &Question) -> Outcome
        requires valid { IsValid question.now }
        ensures fits { fits self.now question.now result };
}

/// A record once it is read.
#[derive(Clone, Copy, Debug)]
pub struct Entry {
    /// Its number, counted from 1.
    pub number: u32,
    /// The question that it names, or its fault.
    pub read: Result<Question, QuestionFault>,
}

/// What is found of a record.
#[derive(Clone, Copy, Debug)]
pub enum Finding {
    /// Its question, and an outcome of that.
    Judged(Question, Outcome),
    /// Its fault.
    Faulty(QuestionKind),
}

/// A record once it is judged.
#[derive(Clone, Copy, Debug)]
pub struct Told {
    /// Its number.
    pub number: u32,
    /// What was found of it.
    pub finding: Finding,
}

/// Judges the records in their order, one batch after another: at most four at once. What is told of one does not depend
/// on the others.
///
/// # Errors
///
/// Want of memory.
pub fn judge_all<R: Threads + Sync, G: Gate + Sync, J: Judge + Sync>(
    rt: &R,
    gate: &G,
    alloc: Global,
    judge: &J,
    entries: &[Entry],
) -> Result<Vec<Told>, Memory>
    requires valid { All (λ entry. IfOk entry.read IsValid) entries.now }
    ensures count { IfOk result (λ told. length told.items ≡ length entries.now) }
    ensures each { IfOk result (λ told. (index : ℕ) (entry : _) (one : _) → index < length entries.now
        → IsTold (J.fits judge.now) (slice_index_or entries.now index entry) (slice_index_or told.items index one)) }
{
    let mut told = Vec::new(alloc);
    let mut rest = entries;
    while !rest.is_empty() {
        let (batch, later) = rest.split_at(rest.len().min(BATCH));
        let mut judged = judge_batch(rt, gate, alloc, judge, batch)?;
        told.append(&mut judged)?;
        rest = later;
    }
    Ok(told)
}

/// Judges the records of one batch at once.
fn judge_batch<R: Threads + Sync, G: Gate + Sync, J: Judge + Sync>(
    rt: &R,
    gate: &G,
    alloc: Global,
    judge: &J,
    batch: &[Entry],
) -> Result<Vec<Told>, Memory>
    requires valid { All (λ entry. IfOk entry.read IsValid) batch.now }
    ensures count { IfOk result (λ told. length told.items ≡ length batch.now) }
    ensures each { IfOk result (λ told. (index : ℕ) (entry : _) (one : _) → index < length batch.now
        → IsTold (J.fits judge.now) (slice_index_or batch.now index entry) (slice_index_or told.items index one)) }
{
    let jobs = batch.to_vec(alloc)?;
    let told = thread::map_vec(rt, jobs, &|entry| judge_one(gate, alloc, judge, entry))?;
    Ok(told)
}

/// Judges a record: the task enters the gate first.
fn judge_one<G: Gate, J: Judge>(gate: &G, alloc: Global, judge: &J, entry: Entry) -> Told
    requires valid { IfOk entry.read IsValid }
    ensures { IsTold (J.fits judge.now) entry result }
{
    gate.enter();
    Told {
        number: entry.number,
        finding: found(alloc, judge, entry.read),
    }
}

/// What is found of what was read.
fn found<J: Judge>(alloc: Global, judge: &J, read: Result<Question, QuestionFault>) -> Finding
    requires valid { IfOk read IsValid }
    ensures { IsFound (J.fits judge.now) read result }
{
    match read {
        Ok(question) => {
            let outcome = judge.judge(alloc, &question);
            Finding::Judged(question, outcome)
        }
        Err(fault) => Finding::Faulty(fault.kind),
    }
}
