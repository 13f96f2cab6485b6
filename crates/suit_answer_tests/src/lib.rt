//! Tests of the public calls of the crates from the tree to the answer, a file for each subject.
#![tactic(auto)]

#[cfg(test)]
mod answer_texts;
#[cfg(test)]
mod hands;
#[cfg(test)]
mod lifts;
#[cfg(test)]
mod programs;
#[cfg(test)]
mod replies;
#[cfg(test)]
mod rounds;
#[cfg(test)]
mod sentences;
#[cfg(test)]
mod trees;
#[cfg(test)]
mod verdicts;
