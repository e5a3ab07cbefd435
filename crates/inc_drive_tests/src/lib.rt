//! Tests of drives: one loader over two files, each with one seat.
//!
//! What is expected comes from the pieces that are given, in their order: the ones before the first that isn't taken are written.
#![tactic(auto)]

#[cfg(test)]
mod driven;
#[cfg(test)]
mod drives;
#[cfg(test)]
mod sample;
#[cfg(test)]
mod torn;
