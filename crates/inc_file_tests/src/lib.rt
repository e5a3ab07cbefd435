//! Tests over disks, shelves and whole files: what a crash leaves, what a new file is, how it is made and mounted.
//!
//! They stand in a crate of their own because a crate that has tests is proved twice. What they expect comes from outside: from a program
//! that isn't part of this repository, or from what a disk may do.
#![tactic(auto)]

// what a disk does, and a shelf of them
#[cfg(test)]
mod disks;
#[cfg(test)]
mod shelves;

// a file that is new, that is made on a disk, and that is mounted
#[cfg(test)]
mod layouts;
#[cfg(test)]
mod makes;
#[cfg(test)]
mod mounts;
