//! Laws of what runs owe: each is the contract of an empty function.
ghost use Rattle.suit_top.specs.Completeness.{RunsComplete, SolvesComplete, SureRunsComplete};
ghost use Rattle.suit_top.specs.WhatSolveWritesIsValid.{SolvedTextsAreValid};

/// What `solve` writes behind its own question is valid to `check`.
pub fn solved_texts_are_valid()
    ensures { SolvedTextsAreValid }
{}

/// Where no port fails a run ends with the status that is due, or memory was wanted.
pub fn runs_complete()
    ensures { RunsComplete }
{}

/// So `solve` ends with Done for the text of a question that has an answer.
pub fn solves_complete()
    ensures { SolvesComplete }
{}

/// Over ports that never fail, with room for what is due, each run ends so.
pub fn sure_runs_complete()
    ensures { SureRunsComplete }
{}
