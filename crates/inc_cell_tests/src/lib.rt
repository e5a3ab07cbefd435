//! Tests of a file's cell over whole disks.
//!
//! They call what the crates below give out, and stand in a crate of their own because a crate that has tests is proved twice. What they
//! expect comes from outside: digests and sums of a program that isn't part of this repository, and the words of the format.
#![tactic(auto)]

// what comes of blocks, fills and reads
#[cfg(test)]
mod blocks;
#[cfg(test)]
mod events;
#[cfg(test)]
mod fills;
#[cfg(test)]
mod reads;
