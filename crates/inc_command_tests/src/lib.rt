//! Tests of whole runs of the program, by its words, its status and its text.
//!
//! They stand in a crate of their own because a crate that has tests is proved twice. What they expect comes from outside: from a program
//! that isn't part of this repository, or from what a text or a status has to be.
#![tactic(auto)]

// a run, and what it leaves
#[cfg(test)]
mod runs;

// what is taken as words
#[cfg(test)]
mod words;

// the commands
#[cfg(test)]
mod checking;
#[cfg(test)]
mod filling;
#[cfg(test)]
mod generated;
#[cfg(test)]
mod listing;
#[cfg(test)]
mod making;
#[cfg(test)]
mod mapped;
#[cfg(test)]
mod ranging;
#[cfg(test)]
mod reading;
#[cfg(test)]
mod unsigned;

// what fails outside
#[cfg(test)]
mod faults;
