//! Tests of whole runs, on questions that are made from their text.
#![tactic(auto)]

#[cfg(test)]
mod checking;
#[cfg(test)]
mod examples;
#[cfg(test)]
mod gates;
#[cfg(test)]
mod ports;
#[cfg(test)]
mod runs;
#[cfg(test)]
mod solved;
#[cfg(test)]
mod solving;
#[cfg(test)]
mod tabling;
#[cfg(test)]
mod weighing;
