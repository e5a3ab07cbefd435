// The input that a command takes.
pub mod input;
