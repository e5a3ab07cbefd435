use crate::history::History;
use inc_io::Name;

/// A file of a shelf in memory, with the states that it came to while its disk was lent.
#[derive(Drop)]
pub struct Entry {
    pub name: Name,
    pub history: History,
}
