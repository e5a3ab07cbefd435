//! A small file for tests of its cell, and steps to take with it.
//!
//! The file's digests come from a program outside this repository, and nothing of what a test expects is made here.
#![tactic(auto)]

pub mod files;
pub mod steps;
