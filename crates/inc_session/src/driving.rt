// Driving one loader over its files.
mod checks;
mod counts;
mod groups;
mod pieces;
mod reads;
mod turns;
mod whole;

pub use counts::DriveCounts;
pub use whole::{drive, drive_loader};
