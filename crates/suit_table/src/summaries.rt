//! How many questions come to which outcome.
ghost use Rattle.std.specs.Prelude.{◌≡◌, ℕ, ◌<◌, ◌≤◌, All, Ok, IfOk, length, slice_index_or, string_bytes};
ghost use Rattle.suit_game.specs.Validity.{IsValid};
ghost use Rattle.suit_table.specs.Summaries.{IsTally, IsOutcome, IsSummary, count_of, tally_line};
ghost use Rattle.suit_table.specs.Summaries.{is_nodes, is_pivots, is_support, is_value, is_wide, summary_line};

use crate::Memory;
use crate::judging::{Entry, Finding, Judge, Told, judge_all};
use crate::outcomes::Outcome;
use std::alloc::{AllocError, Global};
use std::fmt::Write;
use std::thread::Threads;
use suit_game::{Gate, Question};

/// The most questions of a summary.
pub const MOST_QUESTIONS: usize = 10_000;

/// How many outcomes there are, and how many of each kind.
#[derive(Clone, Copy)]
struct Tally {
    records: usize,
    values: usize,
    nodes: usize,
    support: usize,
    pivots: usize,
    wide: usize,
}

/// Judges questions, and tells in one line how many there are and how many come to each outcome.
///
/// # Errors
///
/// Want of memory, also where an outcome is that.
pub fn summary<R: Threads + Sync, G: Gate + Sync, J: Judge + Sync>(
    rt: &R,
    gate: &G,
    alloc: Global,
    judge: &J,
    questions: &[Question],
) -> Result<Vec<u8>, Memory>
    requires valid { All IsValid questions.now }
    requires few { length questions.now ≤ MOST_QUESTIONS }
    ensures { IfOk result (λ text. IsSummary (J.fits judge.now) questions.now text.items) }
{
    let entries = entries_of(alloc, questions)?;
    let told = judge_all(rt, gate, alloc, judge, &entries)?;
    let outcomes = outcomes_of(alloc, &told)?;
    summary_line(alloc, &outcomes)
}

/// The questions as records, numbered from 1.
fn entries_of(alloc: Global, questions: &[Question]) -> Result<Vec<Entry>, Memory>
    requires few { length questions.now ≤ MOST_QUESTIONS }
    ensures count { IfOk result (λ entries. length entries.items ≡ length questions.now) }
    ensures each { IfOk result (λ entries. (index : ℕ) (question : _) (entry : _) → index < length questions.now
        → (slice_index_or entries.items index entry).read ≡ Ok (slice_index_or questions.now index question)) }
{
    let mut entries = Vec::new(alloc);
    let mut number = 0;
    for question in questions {
        number += 1;
        entries.push(Entry {
            number,
            read: Ok(*question),
        })?;
    }
    Ok(entries)
}

/// The outcomes of records, or want of memory where one is that.
fn outcomes_of(alloc: Global, told: &[Told]) -> Result<Vec<Outcome>, Memory>
    ensures count { IfOk result (λ outcomes. length outcomes.items ≡ length told.now) }
    ensures each { IfOk result (λ outcomes. (index : ℕ) (one : _) (outcome : _) → index < length told.now
        → IsOutcome (slice_index_or told.now index one).finding (slice_index_or outcomes.items index outcome)) }
{
    let mut outcomes = Vec::new(alloc);
    for one in told {
        outcomes.push(outcome_of(&one.finding)?)?;
    }
    Ok(outcomes)
}

/// The outcome of a finding that is no want of memory.
fn outcome_of(finding: &Finding) -> Result<Outcome, Memory>
    ensures { IfOk result (λ outcome. IsOutcome finding.now outcome) }
{
    match *finding {
        Finding::Judged(_, Outcome::Memory) | Finding::Faulty(_) => Err(AllocError),
        Finding::Judged(_, outcome) => Ok(outcome),
    }
}

/// The line that tells how many outcomes there are of each kind.
fn summary_line(alloc: Global, outcomes: &[Outcome]) -> Result<Vec<u8>, Memory>
    ensures { IfOk result (λ text. text.items ≡ summary_line outcomes.now) }
{
    let line = tally_line(alloc, &tally_of(outcomes))?;
    Ok(line.into_bytes())
}

/// How many outcomes there are of each kind.
fn tally_of(outcomes: &[Outcome]) -> Tally
    ensures { IsTally outcomes.now result }
{
    Tally {
        records: outcomes.len(),
        values: values_among(outcomes),
        nodes: nodes_among(outcomes),
        support: support_among(outcomes),
        pivots: pivots_among(outcomes),
        wide: wide_among(outcomes),
    }
}

/// How many outcomes are values.
fn values_among(outcomes: &[Outcome]) -> usize
    ensures { result ≡ count_of is_value outcomes.now }
{
    outcomes
        .iter()
        .filter(|outcome| matches!(outcome, Outcome::Value(_)))
        .count()
}

/// How many outcomes are that the tree is too large.
fn nodes_among(outcomes: &[Outcome]) -> usize
    ensures { result ≡ count_of is_nodes outcomes.now }
{
    outcomes
        .iter()
        .filter(|outcome| matches!(outcome, Outcome::Nodes))
        .count()
}

/// How many outcomes are that the program of a support is too large.
fn support_among(outcomes: &[Outcome]) -> usize
    ensures { result ≡ count_of is_support outcomes.now }
{
    outcomes
        .iter()
        .filter(|outcome| matches!(outcome, Outcome::Support))
        .count()
}

/// How many outcomes are that a run needs too many pivots.
fn pivots_among(outcomes: &[Outcome]) -> usize
    ensures { result ≡ count_of is_pivots outcomes.now }
{
    outcomes
        .iter()
        .filter(|outcome| matches!(outcome, Outcome::Pivots))
        .count()
}

/// How many outcomes are that a number is too wide.
fn wide_among(outcomes: &[Outcome]) -> usize
    ensures { result ≡ count_of is_wide outcomes.now }
{
    outcomes
        .iter()
        .filter(|outcome| matches!(outcome, Outcome::Wide))
        .count()
}

/// The line that tells a tally.
fn tally_line(alloc: Global, tally: &Tally) -> Result<String, Memory>
    ensures { IfOk result (λ text. string_bytes text ≡ tally_line tally.now) }
{
    let mut line = String::new(alloc);
    write!(line, "records {} values {}", tally.records, tally.values)?;
    write!(line, " nodes {} support {}", tally.nodes, tally.support)?;
    writeln!(line, " pivots {} wide {}", tally.pivots, tally.wide)?;
    Ok(line)
}
