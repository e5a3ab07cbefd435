//! What the commands of incfs do, and the one call that the program makes.
//!
//! `run_plain` carries the program's theorem: over a shelf that tells what it holds, status, text and the files that stand afterwards are
//! those that the definitions of `specs/` give for these words, these files and what the input gives, or a fault is told that came.
#![tactic(auto)]

// The call, and what it does with the words.
mod answer;
mod run;

// A file a command.
mod commands;

// Where bytes come from.
mod streams;

pub use run::run_plain;

type OutOfMemory = std::alloc::AllocError;
