// What commands print.
pub mod lines;
pub mod reasons;
pub mod refusals;
