//! Tests of a fill from a stream, over whole disks.
//!
//! The file and its digests are those of the tests of cells; they come from a program outside this repository, and so do the numbers that are expected: the
//! format's lengths, and the events of a group.
#![tactic(auto)]

#[cfg(test)]
mod crashes;
#[cfg(test)]
mod streams;
