//! Tests of what a session is made of: histories of one file, scripts, and the reports of what was read.
//!
//! They stand in a crate of their own because a crate that has tests is proved twice. What they expect comes from what a text or a reply has
//! to be.
#![tactic(auto)]

#[cfg(test)]
mod histories;
#[cfg(test)]
mod reports;
#[cfg(test)]
mod scripts;
