//! Tests of the verdicts over a shelf of many files, and of files that are mounted together.
//!
//! They stand in a crate of their own because a crate that has tests is proved twice. What they expect follows from the files, which come
//! from a program that isn't part of this repository, and from the words of the verdicts.
#![tactic(auto)]

// the files, and what each of them is
#[cfg(test)]
mod shelf;

// some hundred files
#[cfg(test)]
mod crowd;

// volumes
#[cfg(test)]
mod mounted;

// all names, and one
#[cfg(test)]
mod verdicts;
