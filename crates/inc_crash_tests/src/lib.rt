//! Tests of what a crash leaves of a file's cell at any moment of a fill, over whole disks.
//!
//! They stand in a crate of their own because a crate that has tests is proved twice. How many blocks are found is bounded by the words of
//! the fill: those acknowledged are there, and none that hadn't begun.
#![tactic(auto)]

#[cfg(test)]
mod crashes;
