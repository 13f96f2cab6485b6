//! Tests of the public calls of the crates below the tree, a file for each subject.
#![tactic(auto)]

#[cfg(test)]
mod classes;
#[cfg(test)]
mod holdings;
#[cfg(test)]
mod layouts;
#[cfg(test)]
mod made_tables;
#[cfg(test)]
mod numbers;
#[cfg(test)]
mod places;
#[cfg(test)]
mod plans;
#[cfg(test)]
mod ports;
#[cfg(test)]
mod question_texts;
#[cfg(test)]
mod questions;
#[cfg(test)]
mod simplex;
#[cfg(test)]
mod tables;
