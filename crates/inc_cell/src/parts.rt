// The parts of which a cell is made, each over a part of its fields alone.
pub mod book;
pub mod device;
pub mod ended;
pub mod hand;
pub mod opening;
pub mod puts;
